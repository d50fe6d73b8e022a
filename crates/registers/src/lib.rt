// The registers of one program: nest, links, Q0 to Q15, overflow, test register and place.
#![tactic(auto)]

pub mod laws;
mod pile;
pub mod registers;

// The outlook on a program's next order: the order, or the first bound that it breaks.
#![tactic(auto)]

pub mod bound;
pub mod next;
mod view;

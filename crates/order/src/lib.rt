// The order code: the orders, the table of their lengths and cells, and the decoder.
#![tactic(auto)]

pub mod code;
pub mod decode;
mod groups;
pub mod laws;
pub mod table;

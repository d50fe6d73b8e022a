// Reading a tape out and writing symbols in, over any bank.
#![tactic(auto)]

pub mod frames;
pub mod reading;
pub mod writing;

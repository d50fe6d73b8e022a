// One program's orders: each tried on what the program owns, over any bank.
#![tactic(auto)]

pub mod attempt;
pub mod carry;
mod moving;
pub mod outcome;

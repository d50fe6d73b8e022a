// Moves of words between the area of a program and a device on a buffer of any bank.
#![tactic(auto)]

pub mod laws;
pub mod moves;
mod part;
mod reading;
mod writing;

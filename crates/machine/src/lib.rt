// The machine: four slots over one store and a bank, and the host's calls.
#![tactic(auto)]

pub mod control;
pub mod machine;
pub mod turn;

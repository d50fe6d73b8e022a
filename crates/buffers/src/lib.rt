// The sixteen buffers: owners, work and locks.
#![tactic(auto)]

pub mod buffer;
pub mod table;

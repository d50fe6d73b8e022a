// The units that stand on buffers: tape reader, punch and drum; and the frames of paper tape.
#![tactic(auto)]

pub mod drum;
pub mod laws;
pub mod marks;
pub mod punch;
pub mod reader;

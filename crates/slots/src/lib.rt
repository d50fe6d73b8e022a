// The four slots: what each holds, areas and images, and the next order of the program in one.
#![tactic(auto)]

pub mod area;
pub mod slots;

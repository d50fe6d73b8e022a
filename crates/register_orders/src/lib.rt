// The orders that touch registers alone, and OUT's removal of N1.
#![tactic(auto)]

mod carry;
mod controls;
mod copies;
mod jumps;
mod moves;
mod q_orders;
mod shifts;
mod sums;

pub use carry::{carry_out, out};
pub use shifts::shift_fits;

// The orders that fetch from and store to the area of a program.
#![tactic(auto)]

mod addresses;
mod halves;
pub mod laws;
mod orders;
mod words;

pub use addresses::{indexed_address, store_address};
pub use orders::{on_indexed, on_store};

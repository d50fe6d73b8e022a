// What the outlook on a program's next order is taken from.
use buffers::table::Buffers;
use registers::registers::Registers;

mod bounds;
mod next;
mod places;

// The program's slot, its registers and area, and the buffers of all programs.
#[derive(Clone, Copy)]
pub(crate) struct View<'a> {
    pub slot: u8,
    pub regs: &'a Registers,
    pub area: &'a [u64],
    pub buffers: &'a Buffers,
}

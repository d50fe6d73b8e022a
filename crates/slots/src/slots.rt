// The slots P, Q, R and S, numbered 0 to 3.
ghost use Rattle.std.specs.Prelude.{◌≡◌, length};
ghost use Rattle.registers.specs.Sound.{Sound};

use crate::area::Area;
use registers::registers::Registers;

mod changes;
mod one_program;
mod orders;
mod questions;

#[derive(Clone, Copy, PartialEq, Eq, Debug)]
pub enum State {
    Empty,
    Ready,
    Stopped,
}

// A program in a slot. It is ready, or stopped.
#[derive(Clone, Copy)]
pub struct Program {
    area: Area,
    registers: Registers,
    stopped: bool,
    ghost sound: { Sound registers },
}

// In each slot a program, or nothing.
#[derive(Clone, Copy)]
pub struct Slots {
    table: [Option<Program>; 4],
    ghost four: { length table ≡ 4 },
}

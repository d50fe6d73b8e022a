// What can be asked of the slots.
ghost use Rattle.std.specs.Prelude.{◌≡◌, is_some, None, option_copied, slice_index_or};
ghost use Rattle.host.specs.Calls.{overlaps, cut_off};
ghost use Rattle.host.specs.Steps.{place_of};
ghost use Rattle.slots.specs.Held.{program_at, asked, state_is, area_of, regs_held};

use super::{Program, Slots, State};
use crate::area::Area;
use registers::registers::Registers;

impl Slots {
    // The program in a slot, if one is there.
    pub(super) fn program(&self, p: u8) -> Option<&Program>
        ensures { option_copied result ≡ slice_index_or self.now.table p None }
    {
        self.table.get(usize::from(p))?.as_ref()
    }

    // Nothing for a number over 3.
    pub fn state(&self, p: u8) -> Option<State>
        ensures { result ≡ asked state_is self.now p }
    {
        let slot = self.table.get(usize::from(p))?;
        Some(slot.as_ref().map_or(State::Empty, Program::state))
    }

    pub fn is_used(&self, p: u8) -> bool
        ensures { result ≡ is_some (program_at self.now p) }
    {
        self.program(p).is_some()
    }

    // Whether a store of so many words ends before the area of the program in a slot.
    pub fn is_cut_off(&self, p: u8, words: usize) -> bool
        ensures { result ≡ cut_off words (program_at self.now p) }
    {
        self.program(p)
            .is_some_and(|program| words < program.area.end())
    }

    // The place of the program in a slot; 0 without a program, and for a number over 3.
    pub fn place(&self, p: u8) -> u16
        ensures { result ≡ place_of (program_at self.now) p }
    {
        self.program(p)
            .map_or(0, |program| program.registers.place())
    }

    // Whether an area has a word in common with that of a program.
    pub fn overlap(&self, area: Area) -> bool
        ensures { result ≡ overlaps (program_at self.now) area.base area.size }
    {
        self.table
            .iter()
            .flatten()
            .any(|program| area.overlaps(program.area))
    }

    // The area of the program in a slot, if one is there.
    pub fn area(&self, p: u8) -> Option<Area>
        ensures { result ≡ asked area_of self.now p }
    {
        self.program(p).map(|program| program.area)
    }

    // The registers of the program in a slot, if one is there.
    pub fn registers(&self, p: u8) -> Option<Registers>
        ensures { result ≡ asked regs_held self.now p }
    {
        self.program(p).map(|program| program.registers)
    }
}

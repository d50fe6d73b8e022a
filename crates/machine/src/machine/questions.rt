// What a host can ask, without changing anything.
ghost use Rattle.std.specs.Prelude.{◌≡◌};
ghost use Rattle.std.specs.Option.{option_map};
ghost use Rattle.registers.specs.Registers.{bits_of};
ghost use Rattle.buffers.specs.Buffers.{records, is_busy};
ghost use Rattle.slots.specs.Held.{asked, state_is, area_of, regs_held};
ghost use Rattle.machine.specs.Questions.{word_of};

use super::Machine;
use device::bank::Bank;
use registers::registers::Registers;
use slots::area::Area;
use slots::slots::State;
use word::word::Word;

impl<B: Bank> Machine<B> {
    // Nothing for a number over 3.
    pub fn state(&self, slot: u8) -> Option<State>
        ensures { result ≡ asked state_is self.now.slots slot }
    {
        self.slots.state(slot)
    }

    // Where the area of the program in a slot is; nothing without a program.
    pub fn area(&self, slot: u8) -> Option<Area>
        ensures { result ≡ asked area_of self.now.slots slot }
    {
        self.slots.area(slot)
    }

    // The registers of the program in a slot; nothing without a program.
    pub fn registers(&self, slot: u8) -> Option<Registers>
        ensures { result ≡ asked regs_held self.now.slots slot }
    {
        self.slots.registers(slot)
    }

    // The word at an address of the program in a slot; nothing without a program, and past its area or the store.
    pub fn word(&self, store: &[u64], slot: u8, address: u16) -> Option<Word>
        ensures { option_map bits_of result ≡ asked (word_of store.now address) self.now.slots slot }
    {
        let area = self.slots.area(slot)?;
        if u32::from(address) >= area.size {
            return None;
        }
        store
            .get(area.base as usize + usize::from(address))
            .copied()
            .map(Word::new)
    }

    // The slot that a buffer is allotted to, if any.
    pub fn owner(&self, buffer: u16) -> Option<u8>
        ensures { result ≡ (records self.now.buffers.table buffer).owner }
    {
        self.buffers.record(buffer).owner
    }

    pub fn is_busy(&self, buffer: u16) -> bool
        ensures { result ≡ is_busy (records self.now.buffers.table buffer).work }
    {
        self.buffers.record(buffer).work.is_busy()
    }
}

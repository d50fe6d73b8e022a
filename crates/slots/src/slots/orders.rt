// The next order of the program in a slot, over the store, the buffers and any bank.
ghost use Rattle.std.specs.Prelude.{◌≡◌, ℕ, ◌+◌, ◌≤◌, Bool, length, Some, Ok, Option};
ghost use Rattle.device.specs.Bank.{standing};
ghost use Rattle.device.specs.Meaning.{Meaning};
ghost use Rattle.buffers.specs.Buffers.{records};
ghost use Rattle.outlook.specs.Outlook.{foreseen};
ghost use Rattle.outlook.specs.Own.{own_of};
ghost use Rattle.program.specs.Told.{told};
ghost use Rattle.host.specs.Steps.{tried_by};
ghost use Rattle.host.specs.World.{part};
ghost use Rattle.slots.specs.Ahead.{ahead_of};
ghost use Rattle.slots.specs.Carried.{Carried};
ghost use Rattle.slots.specs.Held.{program_of, program_at, world_of};

use super::{Program, Slots};
use buffers::table::Buffers;
use device::bank::Bank;
use outlook::bound::Bound;
use outlook::next::{Next, outlook};
use program::carry::carry_next;
use program::outcome::Outcome;

impl Program {
    // What is ahead of it in slot p.
    fn ahead(&self, p: u8, store: &[u64], buffers: &Buffers) -> Option<Result<Next, Bound>>
        ensures { (ready : Bool) (bank : ℕ → Option Meaning) → result ≡ ahead_of p (Some (program_of self.now)) store.now (records buffers.now.table) ready bank }
    {
        let area = store.get(self.area.range())?;
        Some(outlook(p, &self.registers, area, buffers))
    }

    // Carries out its next order.
    fn carry<B: Bank>(
        &mut self,
        p: u8,
        next: Next,
        store: &mut [u64],
        buffers: &mut Buffers,
        bank: &mut B,
    ) -> Outcome
        requires inside { self.old.area.base + self.old.area.size ≤ length store.old }
        requires ahead { (ready : Bool) (bank : ℕ → Option Meaning) → Ok next ≡ foreseen (own_of p self.old.registers (part self.old.area.base self.old.area.size store.old) ready (records buffers.old.table) bank) }
        ensures { Carried p (program_of self.old) (program_of self.new) store.old store.new (records buffers.old.table) (records buffers.new.table) (standing (B.devices bank.old)) (standing (B.devices bank.new)) (told result) }
    {
        let area = &mut store[self.area.range()];
        let registers = &mut self.registers;
        let outcome = carry_next(next, p, registers, area, buffers, bank);
        registers.sound();
        outcome
    }
}

impl Slots {
    // What is ahead of the program in a slot: its next order, or the first bound that this breaks. Nothing where no
    // program is, or the store ends before its area.
    pub fn ahead(&self, p: u8, store: &[u64], buffers: &Buffers) -> Option<Result<Next, Bound>>
        ensures { (ready : Bool) (bank : ℕ → Option Meaning) → result ≡ ahead_of p (program_at self.now p) store.now (records buffers.now.table) ready bank }
    {
        self.program(p)?.ahead(p, store, buffers)
    }

    // Carries out the next order of the program in a slot, which is ahead of it.
    pub fn carry<B: Bank>(
        &mut self,
        p: u8,
        next: Next,
        store: &mut [u64],
        buffers: &mut Buffers,
        bank: &mut B,
    ) -> Outcome
        requires ahead { (ready : Bool) (bank : ℕ → Option Meaning) → Some (Ok next) ≡ ahead_of p (program_at self.old p) store.old (records buffers.old.table) ready bank }
        ensures { ◌≡◌ (world_of store.new self.new buffers.new.table (B.devices bank.new), told result) (tried_by p (world_of store.old self.old buffers.old.table (B.devices bank.old)) (program_at self.old p)) }
    {
        let Some(program) = &mut self.table[usize::from(p)] else {
            unreachable!()
        };
        program.carry(p, next, store, buffers, bank)
    }
}

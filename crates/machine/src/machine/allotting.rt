// Allotting buffers, ending transfers and dismissing programs.
ghost use Rattle.std.specs.Prelude.{◌≡◌, ℕ, ◌<◌, List, OnOk};
ghost use Rattle.host.specs.Calls.{perform, refusal};
ghost use Rattle.host.specs.Calls.Call.{allot, end, dismiss};
ghost use Rattle.host.specs.Numbers.{answered, refused_by};
ghost use Rattle.machine.specs.Shown.{shown};

use super::Machine;
use crate::control::Control;
use device::bank::Bank;
use host::refusal::Refusal;

impl<B: Bank> Machine<B> {
    // The checks of an allotment. Whose the buffer is and what stands on it are taken apart here.
    fn check_allot(&self, slot: u8, buffer: u8) -> Result<(), Refusal>
        ensures within { OnOk result (buffer < 16) }
        ensures first { (store : List ℕ) → refused_by result ≡ refusal (allot slot buffer) (shown B.devices store self.now) }
    {
        if slot > 3 {
            return Err(Refusal::SlotOver3);
        }
        if buffer > 15 {
            return Err(Refusal::BufferOver15);
        }
        if !self.slots.is_used(slot) {
            return Err(Refusal::SlotEmpty);
        }
        match (
            self.buffers.record(u16::from(buffer)).owner,
            self.bank.head(buffer).ok(),
        ) {
            (Some(_), _) => Err(Refusal::BufferTaken),
            (None, None) => Err(Refusal::NothingThere),
            (None, Some(_)) => Ok(()),
        }
    }

    // Gives a slot a buffer.
    pub fn allot(&mut self, _control: &Control, slot: u8, buffer: u8) -> Result<(), Refusal>
        ensures { (store : List ℕ) → ◌≡◌ (shown B.devices store self.new, answered result) (perform (allot slot buffer) (shown B.devices store self.old)) }
    {
        self.check_allot(slot, buffer)?;
        self.buffers.allot(buffer, slot);
        Ok(())
    }

    // The checks of an end.
    fn check_end(&self, buffer: u8) -> Result<(), Refusal>
        ensures within { OnOk result (buffer < 16) }
        ensures first { (store : List ℕ) → refused_by result ≡ refusal (end buffer) (shown B.devices store self.now) }
    {
        if buffer > 15 {
            return Err(Refusal::BufferOver15);
        }
        if !self.is_busy(u16::from(buffer)) {
            return Err(Refusal::NotBusy);
        }
        Ok(())
    }

    // Makes a buffer idle, and so unlocks its groups.
    pub fn end(&mut self, _control: &Control, buffer: u8) -> Result<(), Refusal>
        ensures { (store : List ℕ) → ◌≡◌ (shown B.devices store self.new, answered result) (perform (end buffer) (shown B.devices store self.old)) }
    {
        self.check_end(buffer)?;
        self.buffers.end(buffer);
        Ok(())
    }

    // The checks of a dismissal.
    fn check_dismiss(&self, slot: u8) -> Result<(), Refusal>
        ensures { (store : List ℕ) → refused_by result ≡ refusal (dismiss slot) (shown B.devices store self.now) }
    {
        if slot > 3 {
            return Err(Refusal::SlotOver3);
        }
        if !self.slots.is_used(slot) {
            return Err(Refusal::SlotEmpty);
        }
        if self.buffers.any_busy(slot) {
            return Err(Refusal::BufferBusy);
        }
        Ok(())
    }

    // Frees a slot and its buffers; the words of its area stay.
    pub fn dismiss(&mut self, _control: &Control, slot: u8) -> Result<(), Refusal>
        ensures { (store : List ℕ) → ◌≡◌ (shown B.devices store self.new, answered result) (perform (dismiss slot) (shown B.devices store self.old)) }
    {
        self.check_dismiss(slot)?;
        self.slots.clear(slot);
        self.buffers.release(slot);
        Ok(())
    }
}

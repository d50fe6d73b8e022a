// Loading programs.
ghost use Rattle.std.specs.Prelude.{◌≡◌, ℕ, ◌+◌, ◌<◌, ◌≤◌, List, length, OnOk};
ghost use Rattle.host.specs.Calls.{perform, refusal};
ghost use Rattle.host.specs.Calls.Call.{load};
ghost use Rattle.host.specs.Numbers.{answered, refused_by};
ghost use Rattle.machine.specs.Shown.{shown};

use super::Machine;
use crate::control::Control;
use device::bank::Bank;
use host::refusal::Refusal;
use slots::area::{Area, fill};

impl<B: Bank> Machine<B> {
    // The checks of a load into a store of so many words.
    fn check_load(&self, words: usize, slot: u8, area: Area, image: &[u8]) -> Result<(), Refusal>
        ensures within { OnOk result ((slot < 4) × (area.base + area.size ≤ words) × (area.base + area.size ≤ 32768)) }
        ensures first { (store : List ℕ) → length store ≡ words → refused_by result ≡ refusal (load slot area.base area.size image.now) (shown B.devices store self.now) }
    {
        if slot > 3 {
            return Err(Refusal::SlotOver3);
        }
        if area.is_unshaped() {
            return Err(Refusal::AreaShape);
        }
        if area.is_past(words) {
            return Err(Refusal::AreaPast);
        }
        if 6 * (area.size as usize) < image.len() {
            return Err(Refusal::ImageLong);
        }
        if self.slots.is_used(slot) {
            return Err(Refusal::SlotInUse);
        }
        if self.slots.overlap(area) {
            return Err(Refusal::AreaOverlaps);
        }
        Ok(())
    }

    // Puts a program into an empty slot: its area holds the image and then zeros, and it is ready.
    pub fn load(
        &mut self,
        _control: &Control,
        store: &mut [u64],
        slot: u8,
        area: Area,
        image: &[u8],
    ) -> Result<(), Refusal>
        ensures { ◌≡◌ (shown B.devices store.new self.new, answered result) (perform (load slot area.base area.size image.now) (shown B.devices store.old self.old)) }
    {
        self.check_load(store.len(), slot, area, image)?;
        fill(&mut store[area.range()], image);
        self.slots.load(slot, area);
        Ok(())
    }
}

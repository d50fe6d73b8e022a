// Trying the order at a program's place.
ghost use Rattle.std.specs.Prelude.{◌≡◌, Bool};
ghost use Rattle.buffers.specs.Buffers.{records};
ghost use Rattle.outlook.specs.Own.{own_of};
ghost use Rattle.program.specs.Effects.{attempted};
ghost use Rattle.program.specs.Kept.{Kept};
ghost use Rattle.program.specs.Told.{told};
ghost use Rattle.device.specs.Bank.{standing};

use crate::carry::carry_next;
use crate::outcome::Outcome;
use buffers::table::Buffers;
use device::bank::Bank;
use outlook::next::outlook;
use registers::registers::Registers;

// Tries the next order of the program in a slot: carries it out, or answers the first bound that it breaks.
pub fn attempt<B: Bank>(
    slot: u8,
    regs: &mut Registers,
    area: &mut [u64],
    buffers: &mut Buffers,
    bank: &mut B,
) -> Outcome
    ensures own { (ready : Bool) → attempted (own_of slot regs.old area.old ready (records buffers.old.table) (standing (B.devices bank.old))) ≡ (own_of slot regs.new area.new ready (records buffers.new.table) (standing (B.devices bank.new)), told result) }
    ensures kept { Kept slot (records buffers.old.table) (records buffers.new.table) (standing (B.devices bank.old)) (standing (B.devices bank.new)) }
{
    match outlook(slot, regs, area, buffers) {
        Err(bound) => Outcome::Broke(bound),
        Ok(next) => carry_next(next, slot, regs, area, buffers, bank),
    }
}

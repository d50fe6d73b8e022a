// The next order of a program.
ghost use Rattle.std.specs.Prelude.{◌≡◌, ℕ, Bool, Option};
ghost use Rattle.device.specs.Meaning.{Meaning};
ghost use Rattle.buffers.specs.Buffers.{records};
ghost use Rattle.outlook.specs.Own.{own_of};
ghost use Rattle.outlook.specs.Outlook.{foreseen};

use crate::bound::Bound;
use crate::view::View;
use buffers::table::Buffers;
use order::code::Order;
use registers::registers::Registers;

// An order that breaks no bound, and the place of the one after it.
#[derive(Clone, Copy, PartialEq, Eq, Debug)]
pub struct Next {
    pub order: Order,
    pub place: u16,
}

// The next order of the program in a slot, or the first bound that it breaks. Nothing is changed.
pub fn outlook(slot: u8, regs: &Registers, area: &[u64], buffers: &Buffers) -> Result<Next, Bound>
    ensures { (ready : Bool) (bank : ℕ → Option Meaning) → result ≡ foreseen (own_of slot regs.now area.now ready (records buffers.now.table) bank) }
{
    View {
        slot,
        regs,
        area,
        buffers,
    }
    .outlook()
}

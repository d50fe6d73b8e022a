// The next order of the program.
ghost use Rattle.std.specs.Prelude.{◌≡◌, ℕ, Bool, Option};
ghost use Rattle.device.specs.Meaning.{Meaning};
ghost use Rattle.outlook.specs.Outlook.{foreseen};
ghost use Rattle.outlook.specs.View.{own_seen};

use super::View;
use crate::bound::Bound;
use crate::next::Next;
use order::decode::decode;
use order::table::Row;

impl View<'_> {
    // The next order, or the first bound that it breaks.
    pub(crate) fn outlook(&self) -> Result<Next, Bound>
        ensures { (ready : Bool) (bank : ℕ → Option Meaning) → result ≡ foreseen (own_seen self.now ready bank) }
    {
        let place = self.regs.place();
        let command = self.byte_at(place);
        let row = Row::of(command);
        if self.is_outside(place, row.length) {
            return Err(Bound::Place);
        }
        if self.holds_lock(place, row.length) {
            return Err(Bound::OrderLock);
        }
        let x = self.byte_at(place.wrapping_add(1));
        let y = self.byte_at(place.wrapping_add(2));
        let z = self.byte_at(place.wrapping_add(3));
        let order = decode(command, x, y, z)?;
        self.judge(&order, row)?;
        Ok(Next {
            order,
            place: place.wrapping_add(u16::from(row.length)),
        })
    }
}

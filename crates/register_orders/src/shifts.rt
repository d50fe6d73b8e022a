// Shifts of N1, and the lengths that they take.
ghost use Rattle.std.specs.Prelude.{◌≡◌, ◌≤◌, nat_abs};
ghost use Rattle.order.specs.Cells.{unary_cells};
ghost use Rattle.registers.specs.Enough.{Enough};
ghost use Rattle.register_orders.specs.Shifts.{length_fits, shift_fits, shifted};

use crate::sums::push_checked;
use order::code::{RegisterOrder, Shift};
use registers::registers::Registers;

// Whether a shift by this length is an order; other orders have no length.
pub fn shift_fits(order: RegisterOrder, regs: &Registers) -> bool
    ensures { result ≡ shift_fits order regs.now }
{
    match order {
        RegisterOrder::ShiftByCount(kind, q) => {
            length_fits(kind, -96, 96, regs.q_of(q).c.cast_signed())
        }
        RegisterOrder::ShiftBy(kind, by) => length_fits(kind, -64, 63, i16::from(by)),
        _ => true,
    }
}

fn length_fits(kind: Shift, low: i16, high: i16, by: i16) -> bool
    ensures { result ≡ length_fits kind low high by }
{
    match kind {
        Shift::Arithmetic | Shift::Logical => (low..=high).contains(&by),
        Shift::Cyclic => (-48..=48).contains(&by),
    }
}

pub(crate) fn shift(kind: Shift, by: i16, regs: &mut Registers)
    requires length { kind ≡ Shift.Cyclic → nat_abs by ≤ 48 }
    requires cells { Enough unary_cells regs.old }
    ensures { regs.new ≡ shifted kind by regs.old }
{
    let n1 = regs.pop_word();
    match kind {
        Shift::Arithmetic => push_checked(n1.shift_arithmetic(by), regs),
        Shift::Logical => regs.push_word(n1.shift_logical(by)),
        Shift::Cyclic => regs.push_word(n1.shift_cyclic(by).unwrap()),
    }
}

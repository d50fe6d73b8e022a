// The orders that replace N1, or N2 and N1, by one word.
ghost use Rattle.std.specs.Prelude.{◌≡◌, ◌<◌, length};
ghost use Rattle.order.specs.Cells.{unary_cells, binary_cells};
ghost use Rattle.registers.specs.Registers.{push, overflow_if};
ghost use Rattle.registers.specs.Enough.{Enough};
ghost use Rattle.register_orders.specs.Sums.{replaced, combined};

use order::code::{BinaryOrder, UnaryOrder};
use registers::registers::Registers;
use word::word::Checked;

// V stays set.
pub(crate) fn push_checked(x: Checked, regs: &mut Registers)
    requires { length regs.old.nest < 16 }
    ensures { regs.new ≡ overflow_if x.overflow (push x.word.bits regs.old) }
{
    let was = regs.overflow();
    regs.push_word(x.word);
    regs.set_overflow(was || x.overflow);
}

pub(crate) fn replace(order: UnaryOrder, regs: &mut Registers)
    requires { Enough unary_cells regs.old }
    ensures { regs.new ≡ replaced order regs.old }
{
    let n1 = regs.pop_word();
    match order {
        UnaryOrder::Neg => push_checked(n1.neg(), regs),
        UnaryOrder::Abs => push_checked(n1.abs(), regs),
        UnaryOrder::Not => regs.push_word(n1.not()),
        UnaryOrder::Bits => regs.push_word(n1.ones()),
    }
}

pub(crate) fn combine(order: BinaryOrder, regs: &mut Registers)
    requires { Enough binary_cells regs.old }
    ensures { regs.new ≡ combined order regs.old }
{
    let n1 = regs.pop_word();
    let n2 = regs.pop_word();
    match order {
        BinaryOrder::Add => push_checked(n2.add(n1), regs),
        BinaryOrder::Subtract => push_checked(n2.sub(n1), regs),
        BinaryOrder::Sign => regs.push_word(n2.sign(n1)),
        BinaryOrder::And => regs.push_word(n2.and(n1)),
        BinaryOrder::Either => regs.push_word(n2.or(n1)),
        BinaryOrder::Nev => regs.push_word(n2.nev(n1)),
    }
}

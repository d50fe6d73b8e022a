// Jumps. The place is already that of the next order.
ghost use Rattle.std.specs.Prelude.{◌≡◌, ℕ};
ghost use Rattle.order.specs.Cells.{jump_cells, exit_cells};
ghost use Rattle.registers.specs.Registers.{go_if};
ghost use Rattle.registers.specs.Enough.{Enough};
ghost use Rattle.register_orders.specs.Jumps.{jumped, jumped_on_count, exited};

use order::code::{Condition, CountTest, QNumber};
use registers::registers::Registers;

pub(crate) fn jump(condition: Condition, to: u16, regs: &mut Registers)
    requires { Enough (jump_cells condition) regs.old }
    ensures { regs.new ≡ jumped condition to regs.old }
{
    let met = meets(condition, regs);
    jump_if(met, to, regs);
}

// Whether to jump, after what the test takes or clears.
fn meets(condition: Condition, regs: &mut Registers) -> bool
    requires { Enough (jump_cells condition) regs.old }
    ensures { (a : ℕ) → jumped condition a regs.old ≡ go_if result a regs.new }
{
    match condition {
        Condition::Always => true,
        Condition::ToSubroutine => {
            let next = regs.place();
            regs.push_link(next);
            true
        }
        Condition::IfZero => regs.pop_word().bits() == 0,
        Condition::IfNotZero => regs.pop_word().bits() != 0,
        Condition::IfNegative => regs.pop_word().value() < 0,
        Condition::IfNotNegative => regs.pop_word().value() >= 0,
        Condition::IfPositive => regs.pop_word().value() > 0,
        Condition::IfNotPositive => regs.pop_word().value() <= 0,
        Condition::IfNestEmpty => regs.nest_depth() == 0,
        Condition::IfNestNotEmpty => regs.nest_depth() != 0,
        Condition::IfLinksEmpty => regs.link_depth() == 0,
        Condition::IfLinksNotEmpty => regs.link_depth() != 0,
        Condition::IfTest => regs.take_test(),
        Condition::IfNotTest => !regs.take_test(),
        Condition::IfOverflow => regs.take_overflow(),
        Condition::IfNotOverflow => !regs.take_overflow(),
    }
}

fn jump_if(met: bool, to: u16, regs: &mut Registers)
    ensures { regs.new ≡ go_if met to regs.old }
{
    if met {
        regs.go_to(to);
    }
}

pub(crate) fn jump_on_count(test: CountTest, q: QNumber, to: u16, regs: &mut Registers)
    ensures { regs.new ≡ jumped_on_count test q to regs.old }
{
    let count = regs.q_of(q).c;
    match test {
        CountTest::IfZero => jump_if(count == 0, to, regs),
        CountTest::IfNotZero => jump_if(count != 0, to, regs),
    }
}

// Three syllables to a half word.
pub(crate) fn exit(halves: u8, regs: &mut Registers)
    requires { Enough exit_cells regs.old }
    ensures { regs.new ≡ exited halves regs.old }
{
    let link = regs.pop_link();
    regs.go_to(link.wrapping_add(3 * u16::from(halves)));
}

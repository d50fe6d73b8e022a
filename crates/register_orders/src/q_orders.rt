// The orders on one Q.
ghost use Rattle.std.specs.Prelude.{◌≡◌};
ghost use Rattle.order.specs.Cells.{q_cells};
ghost use Rattle.registers.specs.Enough.{Enough};
ghost use Rattle.register_orders.specs.QOrders.{on_q};

use order::code::{QNumber, QOrder};
use registers::registers::Registers;
use word::q::{Q, part_word, word_part};
use word::word::Word;

const RESET: Q = Q { c: 0, i: 1, m: 0 };

pub(crate) fn change_q(order: QOrder, q: QNumber, regs: &mut Registers)
    requires { Enough (q_cells order) regs.old }
    ensures { regs.new ≡ on_q order q regs.old }
{
    let old = regs.q_of(q);
    let new = match order {
        QOrder::PushQ => return regs.push_word(Word::from(old)),
        QOrder::PushC => return regs.push_word(part_word(old.c)),
        QOrder::PushI => return regs.push_word(part_word(old.i)),
        QOrder::PushM => return regs.push_word(part_word(old.m)),
        QOrder::Advance => old.advance(),
        QOrder::Retreat => old.retreat(),
        QOrder::NegateCount => old.negate_count(),
        QOrder::CountDown => old.count_down(),
        QOrder::SetOne => old.with_i(1),
        QOrder::SetMinusOne => old.with_i(0xffff),
        QOrder::SetTwo => old.with_i(2),
        QOrder::SetMinusTwo => old.with_i(0xfffe),
        QOrder::TakeQ => Q::from(regs.pop_word()),
        QOrder::TakeC => old.with_c(word_part(regs.pop_word())),
        QOrder::TakeI => old.with_i(word_part(regs.pop_word())),
        QOrder::TakeM => old.with_m(word_part(regs.pop_word())),
        QOrder::ResetC => RESET.with_c(word_part(regs.pop_word())),
        QOrder::ResetI => RESET.with_i(word_part(regs.pop_word())),
        QOrder::ResetM => RESET.with_m(word_part(regs.pop_word())),
    };
    regs.put_q(q, new);
}

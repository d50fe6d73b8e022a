// How an order on the registers is carried out. The place is already that of the next order.
ghost use Rattle.std.specs.Prelude.{true, ◌≡◌};
ghost use Rattle.order.specs.Cells.{register_cells, out_cells};
ghost use Rattle.registers.specs.Registers.{N1, pop};
ghost use Rattle.registers.specs.Enough.{Enough};
ghost use Rattle.register_orders.specs.Shifts.{shift_fits};
ghost use Rattle.register_orders.specs.Effects.{effect};

use crate::controls::control;
use crate::copies::copy_parts;
use crate::jumps::{exit, jump, jump_on_count};
use crate::moves::move_words;
use crate::q_orders::change_q;
use crate::shifts::shift;
use crate::sums::{combine, replace};
use order::code::RegisterOrder;
use registers::registers::Registers;
use word::word::Word;

pub fn carry_out(order: RegisterOrder, regs: &mut Registers)
    requires cells { Enough (register_cells order) regs.old }
    requires length { shift_fits order regs.old ≡ true }
    ensures { regs.new ≡ effect order regs.old }
{
    match order {
        RegisterOrder::Move(o) => move_words(o, regs),
        RegisterOrder::Unary(o) => replace(o, regs),
        RegisterOrder::Binary(o) => combine(o, regs),
        RegisterOrder::Control(o) => control(o, regs),
        RegisterOrder::Q(o, q) => change_q(o, q, regs),
        RegisterOrder::ShiftByCount(kind, q) => {
            let by = regs.q_of(q).c.cast_signed();
            shift(kind, by, regs);
        }
        RegisterOrder::ShiftBy(kind, by) => shift(kind, i16::from(by), regs),
        RegisterOrder::Exit(halves) => exit(halves, regs),
        RegisterOrder::Jump(condition, to) => jump(condition, to, regs),
        RegisterOrder::Set(number) => regs.push_word(Word::from(number)),
        RegisterOrder::JumpCount(test, q, to) => jump_on_count(test, q, to, regs),
        RegisterOrder::Copy(parts, k, q) => copy_parts(parts, k, q, regs),
    }
}

// OUT: N1, removed.
pub fn out(regs: &mut Registers) -> Word
    requires { Enough out_cells regs.old }
    ensures answer { result.bits ≡ N1 regs.old }
    ensures after { regs.new ≡ pop regs.old }
{
    regs.pop_word()
}

// Moves of words on the nest.
ghost use Rattle.std.specs.Prelude.{◌≡◌, ◌+◌, ◌≤◌, length};
ghost use Rattle.order.specs.Cells.{move_cells};
ghost use Rattle.registers.specs.Registers.{N1, N2, N3, push, pop};
ghost use Rattle.registers.specs.Enough.{Enough};
ghost use Rattle.register_orders.specs.Moves.{moved};

use order::code::MoveOrder;
use registers::registers::Registers;
use word::word::Word;

pub(crate) fn move_words(order: MoveOrder, regs: &mut Registers)
    requires { Enough (move_cells order) regs.old }
    ensures { regs.new ≡ moved order regs.old }
{
    match order {
        MoveOrder::Zero => regs.push_word(Word::new(0)),
        MoveOrder::Dup => {
            let n1 = regs.pop_word();
            regs.push_word(n1);
            regs.push_word(n1);
        }
        MoveOrder::Erase => {
            let _ = regs.pop_word();
        }
        MoveOrder::Rev => {
            let n1 = regs.pop_word();
            let n2 = regs.pop_word();
            regs.push_word(n1);
            regs.push_word(n2);
        }
        MoveOrder::Perm => {
            let (n1, n2, n3) = pop_three(regs);
            push_three(n2, n3, n1, regs);
        }
        MoveOrder::Cab => {
            let (n1, n2, n3) = pop_three(regs);
            push_three(n3, n1, n2, regs);
        }
    }
}

// N1, N2 and N3, removed.
fn pop_three(regs: &mut Registers) -> (Word, Word, Word)
    requires { 3 ≤ length regs.old.nest }
    ensures n1 { result.0.bits ≡ N1 regs.old }
    ensures n2 { result.1.bits ≡ N2 regs.old }
    ensures n3 { result.2.bits ≡ N3 regs.old }
    ensures after { regs.new ≡ pop (pop (pop regs.old)) }
    ensures room { length regs.new.nest + 3 ≤ 16 }
{
    let n1 = regs.pop_word();
    let n2 = regs.pop_word();
    let n3 = regs.pop_word();
    (n1, n2, n3)
}

// What are to be N1, N2 and N3.
fn push_three(n1: Word, n2: Word, n3: Word, regs: &mut Registers)
    requires { length regs.old.nest + 3 ≤ 16 }
    ensures { regs.new ≡ push n1.bits (push n2.bits (push n3.bits regs.old)) }
{
    regs.push_word(n3);
    regs.push_word(n2);
    regs.push_word(n1);
}

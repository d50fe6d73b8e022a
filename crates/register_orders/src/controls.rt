// The orders on V, T and the links.
ghost use Rattle.std.specs.Prelude.{◌≡◌};
ghost use Rattle.order.specs.Cells.{control_cells};
ghost use Rattle.registers.specs.Enough.{Enough};
ghost use Rattle.register_orders.specs.Controls.{controlled};

use order::code::ControlOrder;
use registers::registers::Registers;
use word::q::{link_word, word_part};

pub(crate) fn control(order: ControlOrder, regs: &mut Registers)
    requires { Enough (control_cells order) regs.old }
    ensures { regs.new ≡ controlled order regs.old }
{
    match order {
        ControlOrder::Dummy => {}
        ControlOrder::ClearOverflow => regs.set_overflow(false),
        ControlOrder::ToTest => {
            let n1 = regs.pop_word();
            regs.set_test(n1.bits() >= 0x8000_0000_0000);
        }
        ControlOrder::FromLink => {
            let link = regs.pop_link();
            regs.push_word(link_word(link));
        }
        ControlOrder::ToLink => {
            let n1 = regs.pop_word();
            regs.push_link(word_part(n1));
        }
    }
}

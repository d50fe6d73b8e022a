// From bytes to orders.
ghost use Rattle.std.specs.Prelude.{◌≡◌};
ghost use Rattle.order.specs.Orders.{order_of, two};

use crate::code::Order::{Indexed, Out, Register, Store, Transfer};
use crate::code::RegisterOrder::{
    Control, Copy, Exit, Jump, JumpCount, Q, Set, ShiftBy, ShiftByCount,
};
use crate::code::{Order, Undecoded, q};
use crate::groups::{
    condition, control_order, count_test, indexed_order, kind_of_shift, nest_order, parts, q_order,
    store_order, transfer_order,
};

// A two-byte operand, the higher byte first.
fn pair(high: u8, low: u8) -> u16
    ensures { result ≡ two high low }
{
    u16::from_be_bytes([high, low])
}

// The order of a command byte and the three bytes after it, of which its own operands count.
pub fn decode(command: u8, x: u8, y: u8, z: u8) -> Result<Order, Undecoded>
    ensures { result ≡ order_of command x y z }
{
    match command {
        0x01..=0x10 => Ok(Register(nest_order(command))),
        0x11..=0x15 => Ok(Register(Control(control_order(command)))),
        0x16 => Ok(Out),
        0x20..=0x32 if x <= 15 => Ok(Register(Q(q_order(command), q(x)))),
        0x33..=0x35 if x <= 15 => Ok(Register(ShiftByCount(kind_of_shift(command), q(x)))),
        0x38..=0x3d if x <= 15 => Ok(Transfer(transfer_order(command), q(x))),
        0x40..=0x42 => Ok(Register(ShiftBy(kind_of_shift(command), x.cast_signed()))),
        0x43 => Ok(Register(Exit(x))),
        0x50..=0x5f => Ok(Register(Jump(condition(command), pair(x, y)))),
        0x60 => Ok(Register(Set(pair(x, y).cast_signed()))),
        0x68..=0x69 if x <= 15 => Ok(Register(JumpCount(count_test(command), q(x), pair(y, z)))),
        0x70..=0x73 if x <= 15 => Ok(Store(store_order(command), q(x), pair(y, z))),
        0x78..=0x7d if x <= 15 && y <= 15 => Ok(Indexed(indexed_order(command), q(x), q(y))),
        0x80..=0x86 if x <= 15 && y <= 15 => Ok(Register(Copy(parts(command), q(x), q(y)))),
        0x20..=0x35 | 0x38..=0x3d | 0x68..=0x69 => Err(Undecoded::Operand),
        0x70..=0x73 | 0x78..=0x7d | 0x80..=0x86 => Err(Undecoded::Operand),
        _ => Err(Undecoded::UnknownCommand),
    }
}

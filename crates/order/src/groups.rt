// The orders of the groups, by their command byte.
ghost use Rattle.std.specs.Prelude.{◌≡◌, ◌≤◌, ◌⊎◌, Some};
ghost use Rattle.order.specs.Orders.{form_of, alone, control, on_q, shift_by_c, transfer, shift, jump, jump_count, store, indexed, copy};
ghost use Rattle.order.specs.declared.code.Order.TheVariants.{Register};

use crate::code::{
    BinaryOrder, Condition, ControlOrder, CountTest, IndexedOrder, MoveOrder, Parts, QOrder,
    RegisterOrder, Shift, StoreOrder, TransferOrder, UnaryOrder,
};

pub(crate) fn nest_order(command: u8) -> RegisterOrder
    requires { (0x01 ≤ command) × (command ≤ 0x10) }
    ensures { form_of command ≡ Some (alone (Register result)) }
{
    match command {
        0x01 => RegisterOrder::Move(MoveOrder::Zero),
        0x02 => RegisterOrder::Move(MoveOrder::Dup),
        0x03 => RegisterOrder::Move(MoveOrder::Erase),
        0x04 => RegisterOrder::Move(MoveOrder::Rev),
        0x05 => RegisterOrder::Move(MoveOrder::Perm),
        0x06 => RegisterOrder::Move(MoveOrder::Cab),
        0x07 => RegisterOrder::Binary(BinaryOrder::Add),
        0x08 => RegisterOrder::Binary(BinaryOrder::Subtract),
        0x09 => RegisterOrder::Unary(UnaryOrder::Neg),
        0x0a => RegisterOrder::Unary(UnaryOrder::Abs),
        0x0b => RegisterOrder::Binary(BinaryOrder::Sign),
        0x0c => RegisterOrder::Unary(UnaryOrder::Not),
        0x0d => RegisterOrder::Binary(BinaryOrder::And),
        0x0e => RegisterOrder::Binary(BinaryOrder::Either),
        0x0f => RegisterOrder::Binary(BinaryOrder::Nev),
        0x10 => RegisterOrder::Unary(UnaryOrder::Bits),
        _ => unreachable(),
    }
}

pub(crate) fn control_order(command: u8) -> ControlOrder
    requires { (0x11 ≤ command) × (command ≤ 0x15) }
    ensures { form_of command ≡ Some (control result) }
{
    match command {
        0x11 => ControlOrder::Dummy,
        0x12 => ControlOrder::ClearOverflow,
        0x13 => ControlOrder::ToTest,
        0x14 => ControlOrder::FromLink,
        0x15 => ControlOrder::ToLink,
        _ => unreachable(),
    }
}

pub(crate) fn q_order(command: u8) -> QOrder
    requires { (0x20 ≤ command) × (command ≤ 0x32) }
    ensures { form_of command ≡ Some (on_q result) }
{
    match command {
        0x20 => QOrder::Advance,
        0x21 => QOrder::Retreat,
        0x22 => QOrder::NegateCount,
        0x23 => QOrder::CountDown,
        0x24 => QOrder::SetOne,
        0x25 => QOrder::SetMinusOne,
        0x26 => QOrder::SetTwo,
        0x27 => QOrder::SetMinusTwo,
        0x28 => QOrder::PushQ,
        0x29 => QOrder::PushC,
        0x2a => QOrder::PushI,
        0x2b => QOrder::PushM,
        0x2c => QOrder::TakeQ,
        0x2d => QOrder::TakeC,
        0x2e => QOrder::TakeI,
        0x2f => QOrder::TakeM,
        0x30 => QOrder::ResetC,
        0x31 => QOrder::ResetI,
        0x32 => QOrder::ResetM,
        _ => unreachable(),
    }
}

// By the C part of a Q, or by a number that stands in the order.
pub(crate) fn kind_of_shift(command: u8) -> Shift
    requires { ((0x33 ≤ command) × (command ≤ 0x35)) ⊎ ((0x40 ≤ command) × (command ≤ 0x42)) }
    ensures by_count { command ≤ 0x35 → form_of command ≡ Some (shift_by_c result) }
    ensures by_number { 0x40 ≤ command → form_of command ≡ Some (shift result) }
{
    match command {
        0x33 | 0x40 => Shift::Arithmetic,
        0x34 | 0x41 => Shift::Logical,
        0x35 | 0x42 => Shift::Cyclic,
        _ => unreachable(),
    }
}

pub(crate) fn transfer_order(command: u8) -> TransferOrder
    requires { (0x38 ≤ command) × (command ≤ 0x3d) }
    ensures { form_of command ≡ Some (transfer result) }
{
    match command {
        0x38 => TransferOrder::Read,
        0x39 => TransferOrder::ReadToEnd,
        0x3a => TransferOrder::Write,
        0x3b => TransferOrder::WriteToEnd,
        0x3c => TransferOrder::Seek,
        0x3d => TransferOrder::Busy,
        _ => unreachable(),
    }
}

pub(crate) fn condition(command: u8) -> Condition
    requires { (0x50 ≤ command) × (command ≤ 0x5f) }
    ensures { form_of command ≡ Some (jump result) }
{
    match command {
        0x50 => Condition::Always,
        0x51 => Condition::ToSubroutine,
        0x52 => Condition::IfZero,
        0x53 => Condition::IfNotZero,
        0x54 => Condition::IfNegative,
        0x55 => Condition::IfNotNegative,
        0x56 => Condition::IfPositive,
        0x57 => Condition::IfNotPositive,
        0x58 => Condition::IfNestEmpty,
        0x59 => Condition::IfNestNotEmpty,
        0x5a => Condition::IfLinksEmpty,
        0x5b => Condition::IfLinksNotEmpty,
        0x5c => Condition::IfTest,
        0x5d => Condition::IfNotTest,
        0x5e => Condition::IfOverflow,
        0x5f => Condition::IfNotOverflow,
        _ => unreachable(),
    }
}

pub(crate) fn count_test(command: u8) -> CountTest
    requires { (0x68 ≤ command) × (command ≤ 0x69) }
    ensures { form_of command ≡ Some (jump_count result) }
{
    match command {
        0x68 => CountTest::IfZero,
        0x69 => CountTest::IfNotZero,
        _ => unreachable(),
    }
}

pub(crate) fn store_order(command: u8) -> StoreOrder
    requires { (0x70 ≤ command) × (command ≤ 0x73) }
    ensures { form_of command ≡ Some (store result) }
{
    match command {
        0x70 => StoreOrder::Fetch,
        0x71 => StoreOrder::FetchStep,
        0x72 => StoreOrder::Put,
        0x73 => StoreOrder::PutStep,
        _ => unreachable(),
    }
}

pub(crate) fn indexed_order(command: u8) -> IndexedOrder
    requires { (0x78 ≤ command) × (command ≤ 0x7d) }
    ensures { form_of command ≡ Some (indexed result) }
{
    match command {
        0x78 => IndexedOrder::Fetch,
        0x79 => IndexedOrder::Put,
        0x7a => IndexedOrder::FetchStep,
        0x7b => IndexedOrder::PutStep,
        0x7c => IndexedOrder::FetchHalf,
        0x7d => IndexedOrder::PutHalf,
        _ => unreachable(),
    }
}

pub(crate) fn parts(command: u8) -> Parts
    requires { (0x80 ≤ command) × (command ≤ 0x86) }
    ensures { form_of command ≡ Some (copy result) }
{
    match command {
        0x80 => Parts::M,
        0x81 => Parts::I,
        0x82 => Parts::Im,
        0x83 => Parts::C,
        0x84 => Parts::Cm,
        0x85 => Parts::Ci,
        0x86 => Parts::Q,
        _ => unreachable(),
    }
}

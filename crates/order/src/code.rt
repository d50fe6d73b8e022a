// The orders, by groups, with their operands, and what a command that is no order answers.
ghost use Rattle.std.specs.Prelude.{◌≡◌, ◌<◌, ◌≤◌};
ghost use Rattle.order.specs.Orders.{q_number};

use std::marker::Model;

// The number of a Q, 0 to 15.
#[derive(Clone, Copy, PartialEq, Eq, Debug)]
pub struct QNumber {
    number: u8,
}

impl Model for QNumber {
    ghost use Rattle.std.specs.Prelude.{ℕ, ◌≤◌};

    ghost Value = { ℕ };

    ghost view = { λ q. q.number };

    ghost invariant = { λ q. q.number ≤ 15 };

    ghost inverse = { λ n. record { number = n } };
}

impl QNumber {
    pub fn get(self) -> u8
        ensures { (result ≡ self) × (result < 16) }
    {
        self.number
    }
}

// The number of a Q, from a byte that is known to be one.
pub(crate) fn q(number: u8) -> QNumber
    requires { number ≤ 15 }
    ensures { result ≡ number }
{
    QNumber { number }
}

impl TryFrom<u8> for QNumber {
    type Error = Undecoded;

    ghost try_from_gives = { λ number result. result ≡ q_number number };

    fn try_from(number: u8) -> Result<QNumber, Undecoded> {
        if number <= 15 {
            Ok(q(number))
        } else {
            Err(Undecoded::Operand)
        }
    }
}

// Moves of words on the nest.
#[derive(Clone, Copy, PartialEq, Eq, Debug)]
pub enum MoveOrder {
    Zero,
    Dup,
    Erase,
    Rev,
    Perm,
    Cab,
}

// N1 replaced by one word.
#[derive(Clone, Copy, PartialEq, Eq, Debug)]
pub enum UnaryOrder {
    Neg,
    Abs,
    Not,
    Bits,
}

// N2 and N1 replaced by one word. `Either` is OR.
#[derive(Clone, Copy, PartialEq, Eq, Debug)]
pub enum BinaryOrder {
    Add,
    Subtract,
    Sign,
    And,
    Either,
    Nev,
}

// On V, T and the links.
#[derive(Clone, Copy, PartialEq, Eq, Debug)]
pub enum ControlOrder {
    Dummy,
    ClearOverflow,
    ToTest,
    FromLink,
    ToLink,
}

// On one Q.
#[derive(Clone, Copy, PartialEq, Eq, Debug)]
pub enum QOrder {
    Advance,
    Retreat,
    NegateCount,
    CountDown,
    SetOne,
    SetMinusOne,
    SetTwo,
    SetMinusTwo,
    PushQ,
    PushC,
    PushI,
    PushM,
    TakeQ,
    TakeC,
    TakeI,
    TakeM,
    ResetC,
    ResetI,
    ResetM,
}

#[derive(Clone, Copy, PartialEq, Eq, Debug)]
pub enum Shift {
    Arithmetic,
    Logical,
    Cyclic,
}

// Between the store and the device of a buffer.
#[derive(Clone, Copy, PartialEq, Eq, Debug)]
pub enum TransferOrder {
    Read,
    ReadToEnd,
    Write,
    WriteToEnd,
    Seek,
    Busy,
}

// When a jump goes to its place.
#[derive(Clone, Copy, PartialEq, Eq, Debug)]
pub enum Condition {
    Always,
    ToSubroutine,
    IfZero,
    IfNotZero,
    IfNegative,
    IfNotNegative,
    IfPositive,
    IfNotPositive,
    IfNestEmpty,
    IfNestNotEmpty,
    IfLinksEmpty,
    IfLinksNotEmpty,
    IfTest,
    IfNotTest,
    IfOverflow,
    IfNotOverflow,
}

// When a jump on the C part of a Q goes to its place.
#[derive(Clone, Copy, PartialEq, Eq, Debug)]
pub enum CountTest {
    IfZero,
    IfNotZero,
}

// On the word at e + M of q. `Step` then advances M and counts C down.
#[derive(Clone, Copy, PartialEq, Eq, Debug)]
pub enum StoreOrder {
    Fetch,
    FetchStep,
    Put,
    PutStep,
}

// On the word, or the half of a word, at M of k and M of q.
#[derive(Clone, Copy, PartialEq, Eq, Debug)]
pub enum IndexedOrder {
    Fetch,
    Put,
    FetchStep,
    PutStep,
    FetchHalf,
    PutHalf,
}

// Which parts of one Q are copied to another.
#[derive(Clone, Copy, PartialEq, Eq, Debug)]
pub enum Parts {
    M,
    I,
    Im,
    C,
    Cm,
    Ci,
    Q,
}

// On the registers alone. A comment names the operands that the numbers are.
#[derive(Clone, Copy, PartialEq, Eq, Debug)]
pub enum RegisterOrder {
    Move(MoveOrder),
    Unary(UnaryOrder),
    Binary(BinaryOrder),
    Control(ControlOrder),
    Q(QOrder, QNumber), // q
    ShiftByCount(Shift, QNumber), // q
    ShiftBy(Shift, i8), // n
    Exit(u8), // h
    Jump(Condition, u16), // a
    Set(i16), // i
    JumpCount(CountTest, QNumber, u16), // q, a
    Copy(Parts, QNumber, QNumber), // k, q
}

// An order with its operands: q and e of `Store`, k and q of `Indexed`, q of `Transfer`.
#[derive(Clone, Copy, PartialEq, Eq, Debug)]
pub enum Order {
    Register(RegisterOrder),
    Store(StoreOrder, QNumber, u16),
    Indexed(IndexedOrder, QNumber, QNumber),
    Transfer(TransferOrder, QNumber),
    Out,
}

// Why bytes are no order: the command stands in no line of the list, or q or k is over 15.
#[derive(Clone, Copy, PartialEq, Eq, Debug)]
pub enum Undecoded {
    UnknownCommand,
    Operand,
}

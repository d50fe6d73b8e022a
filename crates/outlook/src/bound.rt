// The bounds that an order can break.
ghost use Rattle.std.specs.Prelude.{◌≡◌, codes, Some};
ghost use Rattle.outlook.specs.Words.{bound_number, violation_of, bound_words, violation_name, unreadable};

use order::code::Undecoded;
use std::error::Error;
use std::fmt;

// In the order in which they are judged.
#[derive(Clone, Copy, PartialEq, Eq, Debug)]
pub enum Bound {
    // all bytes of the order stand in the area
    Place,
    // no word that holds one of them is locked
    OrderLock,
    // the command is known
    Command,
    // q and k are at most 15
    Operands,
    // nest and links have the cells that it needs
    CellsShort,
    // nest and links have at most 16 cells then
    CellsOver,
    // a shift's length is in its range
    ShiftLength,
    // the word that it fetches or stores is in the area
    Address,
    // its buffer is one of the program's
    NoBuffer,
    // I ≤ M, and M is in the area
    Limits,
    // its buffer is idle
    Busy,
    // no word that it touches is locked
    WordLock,
}

// What it is to break a bound: a lock-in violation, a nest overflow or underflow, or a lock-out.
#[derive(Clone, Copy, PartialEq, Eq, Debug)]
pub enum Violation {
    Liv,
    Nouv,
    Lov,
}

impl Bound {
    // Its place in the list.
    pub fn number(self) -> u8
        ensures { result ≡ bound_number self }
    {
        match self {
            Bound::Place => 1,
            Bound::OrderLock => 2,
            Bound::Command => 3,
            Bound::Operands => 4,
            Bound::CellsShort => 5,
            Bound::CellsOver => 6,
            Bound::ShiftLength => 7,
            Bound::Address => 8,
            Bound::NoBuffer => 9,
            Bound::Limits => 10,
            Bound::Busy => 11,
            Bound::WordLock => 12,
        }
    }

    pub fn violation(self) -> Violation
        ensures { result ≡ violation_of self }
    {
        match self {
            Bound::OrderLock | Bound::Busy | Bound::WordLock => Violation::Lov,
            Bound::CellsShort | Bound::CellsOver => Violation::Nouv,
            _ => Violation::Liv,
        }
    }

    // What a person reads of it.
    pub fn words(self) -> &'static str
        ensures { result.now ≡ codes (bound_words self) }
    {
        match self {
            Bound::Place => "place",
            Bound::OrderLock => "lock on its words",
            Bound::Command => "known command",
            Bound::Operands => "q and k",
            Bound::CellsShort => "nest and links short",
            Bound::CellsOver => "nest and links over 16",
            Bound::ShiftLength => "shift length",
            Bound::Address => "address",
            Bound::NoBuffer => "buffer",
            Bound::Limits => "I and M",
            Bound::Busy => "buffer busy",
            Bound::WordLock => "lock on a word touched",
        }
    }
}

impl fmt::Display for Bound {
    ghost output = { λ bound. Some (codes (bound_words bound)) };

    fn fmt<W: fmt::Write>(&self, f: &mut fmt::Formatter<W>) -> fmt::Result {
        f.write_str(self.words())
    }
}

impl Error for Bound {}

// The bound that bytes break which say no order.
impl From<Undecoded> for Bound {
    ghost from_gives = { λ undecoded bound. bound ≡ unreadable undecoded };

    fn from(undecoded: Undecoded) -> Bound {
        match undecoded {
            Undecoded::UnknownCommand => Bound::Command,
            Undecoded::Operand => Bound::Operands,
        }
    }
}

impl Violation {
    pub fn name(self) -> &'static str
        ensures { result.now ≡ codes (violation_name self) }
    {
        match self {
            Violation::Liv => "LIV",
            Violation::Nouv => "NOUV",
            Violation::Lov => "LOV",
        }
    }
}

impl fmt::Display for Violation {
    ghost output = { λ violation. Some (codes (violation_name violation)) };

    fn fmt<W: fmt::Write>(&self, f: &mut fmt::Formatter<W>) -> fmt::Result {
        f.write_str(self.name())
    }
}

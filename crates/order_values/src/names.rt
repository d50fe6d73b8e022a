// The names of the orders, by groups.
use order::code::{
    BinaryOrder, Condition, ControlOrder, CountTest, IndexedOrder, MoveOrder, Parts, QOrder, Shift,
    StoreOrder, TransferOrder, UnaryOrder,
};

pub(crate) trait Name {
    fn name(self) -> &'static str;
}

impl Name for MoveOrder {
    fn name(self) -> &'static str {
        match self {
            Self::Zero => "ZERO",
            Self::Dup => "DUP",
            Self::Erase => "ERASE",
            Self::Rev => "REV",
            Self::Perm => "PERM",
            Self::Cab => "CAB",
        }
    }
}

impl Name for UnaryOrder {
    fn name(self) -> &'static str {
        match self {
            Self::Neg => "NEG",
            Self::Abs => "ABS",
            Self::Not => "NOT",
            Self::Bits => "BITS",
        }
    }
}

impl Name for BinaryOrder {
    fn name(self) -> &'static str {
        match self {
            Self::Add => "+",
            Self::Subtract => "-",
            Self::Sign => "SIGN",
            Self::And => "AND",
            Self::Either => "OR",
            Self::Nev => "NEV",
        }
    }
}

impl Name for ControlOrder {
    fn name(self) -> &'static str {
        match self {
            Self::Dummy => "DUMMY",
            Self::ClearOverflow => "VR",
            Self::ToTest => "=TR",
            Self::FromLink => "LINK",
            Self::ToLink => "=LINK",
        }
    }
}

impl Name for QOrder {
    fn name(self) -> &'static str {
        match self {
            Self::Advance => "M+I",
            Self::Retreat => "M-I",
            Self::NegateCount => "NC",
            Self::CountDown => "DC",
            Self::SetOne => "I=1",
            Self::SetMinusOne => "I=-1",
            Self::SetTwo => "I=2",
            Self::SetMinusTwo => "I=-2",
            Self::PushQ => "Q",
            Self::PushC => "C",
            Self::PushI => "I",
            Self::PushM => "M",
            Self::TakeQ => "=Q",
            Self::TakeC => "=C",
            Self::TakeI => "=I",
            Self::TakeM => "=M",
            Self::ResetC => "=RC",
            Self::ResetI => "=RI",
            Self::ResetM => "=RM",
        }
    }
}

impl Name for TransferOrder {
    fn name(self) -> &'static str {
        match self {
            Self::Read => "RD",
            Self::ReadToEnd => "RDE",
            Self::Write => "WR",
            Self::WriteToEnd => "WRE",
            Self::Seek => "SEEK",
            Self::Busy => "BUSY",
        }
    }
}

// A shift by the C part of a Q has this name with C after it.
impl Name for Shift {
    fn name(self) -> &'static str {
        match self {
            Self::Arithmetic => "SHA",
            Self::Logical => "SHL",
            Self::Cyclic => "SHC",
        }
    }
}

impl Name for Condition {
    fn name(self) -> &'static str {
        match self {
            Self::Always => "J",
            Self::ToSubroutine => "JS",
            Self::IfZero => "J=Z",
            Self::IfNotZero => "J#Z",
            Self::IfNegative => "J<Z",
            Self::IfNotNegative => "J>=Z",
            Self::IfPositive => "J>Z",
            Self::IfNotPositive => "J<=Z",
            Self::IfNestEmpty => "JEN",
            Self::IfNestNotEmpty => "JNEN",
            Self::IfLinksEmpty => "JEJ",
            Self::IfLinksNotEmpty => "JNEJ",
            Self::IfTest => "JTR",
            Self::IfNotTest => "JNTR",
            Self::IfOverflow => "JV",
            Self::IfNotOverflow => "JNV",
        }
    }
}

impl Name for CountTest {
    fn name(self) -> &'static str {
        match self {
            Self::IfZero => "JCZ",
            Self::IfNotZero => "JCNZ",
        }
    }
}

impl Name for StoreOrder {
    fn name(self) -> &'static str {
        match self {
            Self::Fetch => "E",
            Self::FetchStep => "EQ",
            Self::Put => "=E",
            Self::PutStep => "=EQ",
        }
    }
}

impl Name for IndexedOrder {
    fn name(self) -> &'static str {
        match self {
            Self::Fetch => "MM",
            Self::Put => "=MM",
            Self::FetchStep => "MMQ",
            Self::PutStep => "=MMQ",
            Self::FetchHalf => "MMH",
            Self::PutHalf => "=MMH",
        }
    }
}

impl Name for Parts {
    fn name(self) -> &'static str {
        match self {
            Self::M => "MTO",
            Self::I => "ITO",
            Self::Im => "IMTO",
            Self::C => "CTO",
            Self::Cm => "CMTO",
            Self::Ci => "CITO",
            Self::Q => "QTO",
        }
    }
}

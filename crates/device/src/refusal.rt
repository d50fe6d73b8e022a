// Why a device, a bank, or a check of input refuses.
ghost use Rattle.std.specs.Prelude.{◌≡◌, codes, Err, Some};
ghost use Rattle.device.specs.Meaning.{refused_write};
ghost use Rattle.device.specs.Words.{number_of, words};

use std::{error, fmt};
use thiserror::Error;

// Why a device or a bank refuses a call.
#[derive(Clone, Copy, PartialEq, Eq, Debug)]
pub enum Refusal {
    WrongWay,
    NoMore,
    Damaged,
    NoRing,
    Full,
    NoSuchCell,
    NothingThere,
}

impl Refusal {
    pub fn words(self) -> &'static str
        ensures { result.now ≡ codes (words self) }
    {
        match self {
            Refusal::WrongWay => "wrong way",
            Refusal::NoMore => "no more",
            Refusal::Damaged => "damaged",
            Refusal::NoRing => "no ring",
            Refusal::Full => "full",
            Refusal::NoSuchCell => "no such cell",
            Refusal::NothingThere => "nothing there",
        }
    }
}

impl fmt::Display for Refusal {
    ghost output = { λ refusal. Some (codes (words refusal)) };

    fn fmt<W: fmt::Write>(&self, f: &mut fmt::Formatter<W>) -> fmt::Result {
        f.write_str(self.words())
    }
}

impl error::Error for Refusal {}

// Why a device does not write, whatever is in its cells.
#[derive(Clone, Copy, PartialEq, Eq, Debug)]
pub enum NotWriting {
    WrongWay,
    NoRing,
}

impl From<NotWriting> for Refusal {
    ghost from_gives = { λ why refusal. words refusal ≡ refused_write (Err why) };

    fn from(why: NotWriting) -> Refusal {
        match why {
            NotWriting::WrongWay => Refusal::WrongWay,
            NotWriting::NoRing => Refusal::NoRing,
        }
    }
}

// What a check refuses of its input. Its text says what is wrong and what to do, for a person.
#[derive(Clone, Copy, PartialEq, Eq, Debug, Error)]
pub enum InputRefusal {
    #[error("refused 2, the buffer is over 15: choose one from 0 to 15")]
    BufferOver15,
    #[error("refused 6, there are more than 4096 frames: cut the tape into shorter ones")]
    FramesOver4096,
    #[error("refused 7, the table does not hold each symbol 0 to 63 once: mend the table")]
    TableUnfit,
}

impl InputRefusal {
    pub fn number(self) -> u8
        ensures { result ≡ number_of self }
    {
        match self {
            InputRefusal::BufferOver15 => 2,
            InputRefusal::FramesOver4096 => 6,
            InputRefusal::TableUnfit => 7,
        }
    }
}

// Why a host's call is refused.
ghost use Rattle.std.specs.Prelude.{◌≡◌, ◌++◌, codes, Some};
ghost use Rattle.std.specs.Fmt.{decimal};
ghost use Rattle.host.specs.Numbers.{number_of, words};

use std::error::Error;
use std::fmt;

#[derive(Clone, Copy, PartialEq, Eq, Debug)]
pub enum Refusal {
    SlotOver3,
    BufferOver15,
    AreaShape,
    AreaPast,
    ImageLong,
    SlotInUse,
    AreaOverlaps,
    SlotEmpty,
    BufferTaken,
    NothingThere,
    BufferBusy,
    NotBusy,
    SlotStopped,
    StoreShort,
}

impl Refusal {
    pub fn number(self) -> u8
        ensures { result ≡ number_of self }
    {
        match self {
            Refusal::SlotOver3 => 1,
            Refusal::BufferOver15 => 2,
            Refusal::AreaShape => 3,
            Refusal::AreaPast => 4,
            Refusal::ImageLong => 5,
            Refusal::SlotInUse => 8,
            Refusal::AreaOverlaps => 9,
            Refusal::SlotEmpty => 10,
            Refusal::BufferTaken => 11,
            Refusal::NothingThere => 12,
            Refusal::BufferBusy => 13,
            Refusal::NotBusy => 14,
            Refusal::SlotStopped => 15,
            Refusal::StoreShort => 16,
        }
    }

    // What is wrong.
    pub fn words(self) -> &'static str
        ensures { result.now ≡ codes (words self) }
    {
        match self {
            Refusal::SlotOver3 => "slot is over 3",
            Refusal::BufferOver15 => "buffer is over 15",
            Refusal::AreaShape => "base or size is no multiple of 32, or size is 0",
            Refusal::AreaPast => "area passes the end of the store or word 32768",
            Refusal::ImageLong => "image is longer than 6 bytes for each word of the area",
            Refusal::SlotInUse => "slot is in use",
            Refusal::AreaOverlaps => "area overlaps another",
            Refusal::SlotEmpty => "slot is empty",
            Refusal::BufferTaken => "buffer is taken",
            Refusal::NothingThere => "nothing stands on the buffer",
            Refusal::BufferBusy => "a buffer of the slot is busy",
            Refusal::NotBusy => "buffer is not busy",
            Refusal::SlotStopped => "slot is stopped",
            Refusal::StoreShort => "store ends before the area",
        }
    }
}

impl fmt::Display for Refusal {
    ghost output = { λ refusal. Some (codes "refused " ++ decimal (number_of refusal) ++ codes ", " ++ codes (words refusal)) };

    fn fmt<W: fmt::Write>(&self, f: &mut fmt::Formatter<W>) -> fmt::Result {
        let number = self.number();
        let words = self.words();
        write!(f, "refused {number}, {words}")
    }
}

impl Error for Refusal {}

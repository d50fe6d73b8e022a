// A word: 48 bits, and the number that they stand for.
ghost use Rattle.std.specs.Prelude.{◌≡◌, ◌%◌, ◌^◌, ◌<◌};
ghost use Rattle.word.specs.Wrap.{wrap, signed, outside};

mod halves;
mod logic;
mod shifts;
mod sums;

const MASK: u64 = 0xffff_ffff_ffff;

const TOP: i64 = 0x8000_0000_0000;

// 48 bits, D0 the highest and D47 the lowest.
#[derive(Clone, Copy, PartialEq, Eq, Debug)]
pub struct Word {
    bits: u64,
    ghost ok: { bits < 2 ^ 48 },
}

// The word that is left of a number, and whether the number lies outside -2^47 to 2^47 - 1.
#[derive(Clone, Copy, PartialEq, Eq, Debug)]
pub struct Checked {
    pub word: Word,
    pub overflow: bool,
}

impl Word {
    // The low 48 bits of an entry of the store.
    pub fn new(entry: u64) -> Word
        ensures { result.bits ≡ entry % 2 ^ 48 }
    {
        Word { bits: entry & MASK }
    }

    // The bits as a number without a sign.
    pub fn bits(self) -> u64
        ensures { (result ≡ self.bits) × (result < 2 ^ 48) }
    {
        self.bits
    }

    // The number that the word stands for, in two's complement.
    pub fn value(self) -> i64
        ensures { result ≡ signed 48 self.bits }
    {
        (self.bits << 16).cast_signed() >> 16
    }

    // A number modulo 2^48, and whether it overflows.
    pub fn checked(value: i64) -> Checked
        ensures word { result.word.bits ≡ wrap 48 value }
        ensures overflow { result.overflow ≡ outside 48 value }
    {
        Checked {
            word: Word::new(value.cast_unsigned()),
            overflow: value < -TOP || value >= TOP,
        }
    }
}

// Zero.
impl Default for Word {
    ghost is_default = { λ word. word.bits ≡ 0 };

    fn default() -> Word {
        Word { bits: 0 }
    }
}

// A number of 16 bits with its sign, as SET pushes it.
impl From<i16> for Word {
    ghost from_gives = { λ value word. word.bits ≡ wrap 48 value };

    fn from(value: i16) -> Word {
        Word::checked(i64::from(value)).word
    }
}

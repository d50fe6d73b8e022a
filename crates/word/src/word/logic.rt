// Words as 48 separate bits: each place of the result depends on that place alone.
ghost use Rattle.std.specs.Prelude.{◌≡◌, bit_and, bit_or, bit_xor, count_ones};
ghost use Rattle.word.specs.Places.{inverted};

use super::Word;

impl Word {
    // Each bit turned.
    pub fn not(self) -> Word
        ensures { result.bits ≡ inverted 48 self.bits }
    {
        Word::new(!self.bits)
    }

    // A one where both have a one.
    pub fn and(self, other: Word) -> Word
        ensures { result.bits ≡ bit_and self.bits other.bits }
    {
        Word {
            bits: self.bits & other.bits,
        }
    }

    // A one where either has a one.
    pub fn or(self, other: Word) -> Word
        ensures { result.bits ≡ bit_or self.bits other.bits }
    {
        Word {
            bits: self.bits | other.bits,
        }
    }

    // A one where the two differ.
    pub fn nev(self, other: Word) -> Word
        ensures { result.bits ≡ bit_xor self.bits other.bits }
    {
        Word {
            bits: self.bits ^ other.bits,
        }
    }

    // The number of ones.
    pub fn ones(self) -> Word
        ensures { result.bits ≡ count_ones self.bits }
    {
        Word::new(u64::from(self.bits.count_ones()))
    }
}

// The two halves of a word, 24 bits each. A half on the nest stands in the upper 24 bits.
ghost use Rattle.std.specs.Prelude.{◌≡◌};
ghost use Rattle.word.specs.Halves.{upper_half, lower_half, with_upper, with_lower};

use super::Word;

const HALF: u64 = 0x100_0000;

impl Word {
    // The upper half, over zeros.
    pub fn upper(self) -> Word
        ensures { result.bits ≡ upper_half self.bits }
    {
        Word {
            bits: self.bits >> 24 << 24,
        }
    }

    // The lower half, moved up, over zeros.
    pub fn lower(self) -> Word
        ensures { result.bits ≡ lower_half self.bits }
    {
        Word::new(self.bits << 24)
    }

    // The upper half replaced by the upper half of `half`.
    pub fn with_upper(self, half: Word) -> Word
        ensures { result.bits ≡ with_upper half.bits self.bits }
    {
        Word {
            bits: (half.bits >> 24 << 24) + self.bits % HALF,
        }
    }

    // The lower half replaced by the upper half of `half`.
    pub fn with_lower(self, half: Word) -> Word
        ensures { result.bits ≡ with_lower half.bits self.bits }
    {
        Word {
            bits: (self.bits >> 24 << 24) + (half.bits >> 24),
        }
    }
}

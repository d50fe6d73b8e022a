// Words as numbers: sums, differences, negatives, absolute values, and which of two is above.
ghost use Rattle.std.specs.Prelude.{◌≡◌, ◌+ℤ◌, ◌-ℤ◌, neg_ℤ};
ghost use Rattle.word.specs.Wrap.{wrap, signed, outside, sign, magnitude};

use super::{Checked, MASK, Word};

impl Word {
    // self + other.
    pub fn add(self, other: Word) -> Checked
        ensures word { result.word.bits ≡ wrap 48 (signed 48 self.bits +ℤ signed 48 other.bits) }
        ensures overflow { result.overflow ≡ outside 48 (signed 48 self.bits +ℤ signed 48 other.bits) }
    {
        Word::checked(self.value() + other.value())
    }

    // self - other.
    pub fn sub(self, other: Word) -> Checked
        ensures word { result.word.bits ≡ wrap 48 (signed 48 self.bits -ℤ signed 48 other.bits) }
        ensures overflow { result.overflow ≡ outside 48 (signed 48 self.bits -ℤ signed 48 other.bits) }
    {
        Word::checked(self.value() - other.value())
    }

    // -self.
    pub fn neg(self) -> Checked
        ensures word { result.word.bits ≡ wrap 48 (neg_ℤ (signed 48 self.bits)) }
        ensures overflow { result.overflow ≡ outside 48 (neg_ℤ (signed 48 self.bits)) }
    {
        Word::checked(-self.value())
    }

    // The absolute value.
    pub fn abs(self) -> Checked
        ensures word { result.word.bits ≡ wrap 48 (magnitude (signed 48 self.bits)) }
        ensures overflow { result.overflow ≡ outside 48 (magnitude (signed 48 self.bits)) }
    {
        let value = self.value();
        if value < 0 {
            Word::checked(-value)
        } else {
            Word::checked(value)
        }
    }

    // +1, 0 or -1 as self is above, equal to or below other: by comparison, so it never overflows.
    pub fn sign(self, other: Word) -> Word
        ensures { result.bits ≡ wrap 48 (sign (signed 48 self.bits) (signed 48 other.bits)) }
    {
        let a = self.value();
        let b = other.value();
        if a > b {
            Word { bits: 1 }
        } else if a < b {
            Word { bits: MASK }
        } else {
            Word { bits: 0 }
        }
    }
}

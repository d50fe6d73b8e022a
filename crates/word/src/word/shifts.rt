// Shifts of a word: left by a length above zero, right by one below.
ghost use Rattle.std.specs.Prelude.{◌≡◌, ◌-◌, ◌*◌, ◌/◌, ◌%◌, ◌^◌, ◌<◌, ◌≤◌, pos, ◌+ℤ◌, ◌*ℤ◌, ◌≤ℤ◌};
ghost use Rattle.std.specs.Int.Signed.{shr_z};
ghost use Rattle.std.specs.Option.{option_map};
ghost use Rattle.word.specs.Wrap.{wrap, signed, outside};
ghost use Rattle.word.specs.Shift.{logical, arithmetic, cyclic_left, cyclic_within};

use super::{Checked, MASK, Word};

impl Word {
    fn left(self, by: u16) -> Word
        ensures { result.bits ≡ self.bits * 2 ^ by % 2 ^ 48 }
    {
        if by < 48 {
            Word::new(self.bits << by)
        } else {
            Word { bits: 0 }
        }
    }

    fn right(self, by: u16) -> Word
        ensures { result.bits ≡ self.bits / 2 ^ by }
    {
        if by < 48 {
            Word {
                bits: self.bits >> by,
            }
        } else {
            Word { bits: 0 }
        }
    }

    // Logical: zeros come in.
    pub fn shift_logical(self, length: i16) -> Word
        ensures { result.bits ≡ logical 48 length self.bits }
    {
        if length >= 0 {
            self.left(length.unsigned_abs())
        } else {
            self.right(length.unsigned_abs())
        }
    }

    // Whether the number times 2^by overflows.
    fn leaves(self, by: u16) -> bool
        ensures { result ≡ outside 48 (signed 48 self.bits *ℤ pos (2 ^ by)) }
    {
        if by >= 48 {
            return self.bits != 0;
        }
        let room = 1u64 << (47 - by);
        self.bits >= room && self.bits < MASK + 1 - room
    }

    // The number times 2^by.
    fn scaled(self, by: u16) -> Checked
        ensures word { result.word.bits ≡ wrap 48 (signed 48 self.bits *ℤ pos (2 ^ by)) }
        ensures overflow { result.overflow ≡ outside 48 (signed 48 self.bits *ℤ pos (2 ^ by)) }
    {
        Checked {
            word: self.left(by),
            overflow: self.leaves(by),
        }
    }

    // The number and half of 2^by, divided by 2^by and rounded down.
    fn divided(self, by: u16) -> Word
        requires { 0 < by }
        ensures { result.bits ≡ wrap 48 (shr_z (signed 48 self.bits +ℤ pos (2 ^ (by - 1))) (2 ^ by)) }
    {
        if by >= 48 {
            return Word { bits: 0 };
        }
        Word::checked(floor_shift(self.value() + power(by - 1), by)).word
    }

    // Arithmetic: left multiplies, right divides and rounds.
    pub fn shift_arithmetic(self, length: i16) -> Checked
        ensures word { result.word.bits ≡ wrap 48 (arithmetic length (signed 48 self.bits)) }
        ensures overflow { result.overflow ≡ outside 48 (arithmetic length (signed 48 self.bits)) }
    {
        if length >= 0 {
            self.scaled(length.unsigned_abs())
        } else {
            Checked {
                word: self.divided(length.unsigned_abs()),
                overflow: false,
            }
        }
    }

    // Turned left: what passes D0 comes in at D47.
    fn rotated(self, by: u16) -> Word
        requires { by ≤ 48 }
        ensures { result.bits ≡ cyclic_left 48 by self.bits }
    {
        let up = Word::new(self.bits << by);
        Word {
            bits: up.bits | self.bits >> (48 - by),
        }
    }

    // Cyclic: what leaves at one end comes in at the other. No answer past 48 places.
    pub fn shift_cyclic(self, length: i16) -> Option<Word>
        ensures { option_map (λ w. w.bits) result ≡ cyclic_within 48 length self.bits }
    {
        let by = length.unsigned_abs();
        if by > 48 {
            None
        } else if length >= 0 {
            Some(self.rotated(by))
        } else {
            Some(self.rotated(48 - by))
        }
    }
}

// 2^by.
fn power(by: u16) -> i64
    requires { by < 62 }
    ensures value { result ≡ pos (2 ^ by) }
    ensures bound { result ≤ℤ pos (2 ^ 62) }
{
    1i64 << by
}

// A number divided by 2^by, rounded down.
fn floor_shift(value: i64, by: u16) -> i64
    requires { by < 64 }
    ensures { result ≡ shr_z value (2 ^ by) }
{
    value >> by
}

// A Q: counter, increment and modifier; and the ways of 16 bits to and from a word.
ghost use Rattle.std.specs.Prelude.{◌≡◌};
ghost use Rattle.word.specs.Qs.{joined, split, advanced, retreated, count_negated, counted_down, with_c, with_i, with_m, part_word, word_part, address_sum};

use crate::word::Word;

const PART: u64 = 0x1_0000;

#[derive(Clone, Copy, PartialEq, Eq, Debug, Default)]
pub struct Q {
    pub c: u16,
    pub i: u16,
    pub m: u16,
}

impl Q {
    pub fn with_c(self, part: u16) -> Q
        ensures { result ≡ with_c part self }
    {
        Q { c: part, ..self }
    }

    pub fn with_i(self, part: u16) -> Q
        ensures { result ≡ with_i part self }
    {
        Q { i: part, ..self }
    }

    pub fn with_m(self, part: u16) -> Q
        ensures { result ≡ with_m part self }
    {
        Q { m: part, ..self }
    }

    // M+I.
    pub fn advance(self) -> Q
        ensures { result ≡ advanced self }
    {
        Q {
            m: self.m.wrapping_add(self.i),
            ..self
        }
    }

    // M-I.
    pub fn retreat(self) -> Q
        ensures { result ≡ retreated self }
    {
        Q {
            m: self.m.wrapping_sub(self.i),
            ..self
        }
    }

    // NC.
    pub fn negate_count(self) -> Q
        ensures { result ≡ count_negated self }
    {
        Q {
            c: self.c.wrapping_neg(),
            ..self
        }
    }

    // DC.
    pub fn count_down(self) -> Q
        ensures { result ≡ counted_down self }
    {
        Q {
            c: self.c.wrapping_sub(1),
            ..self
        }
    }
}

// The three parts in one word, C highest.
impl From<Q> for Word {
    ghost from_gives = { λ q word. word.bits ≡ joined q };

    fn from(q: Q) -> Word {
        Word::new((u64::from(q.c) << 32) + (u64::from(q.i) << 16) + u64::from(q.m))
    }
}

// The three parts of a word.
impl From<Word> for Q {
    ghost from_gives = { λ word q. q ≡ split word.bits };

    fn from(word: Word) -> Q {
        let bits = word.bits();
        Q {
            c: (bits >> 32) as u16,
            i: ((bits >> 16) % PART) as u16,
            m: (bits % PART) as u16,
        }
    }
}

// A part on the nest: signed.
pub fn part_word(part: u16) -> Word
    ensures { result.bits ≡ part_word part }
{
    Word::from(part.cast_signed())
}

// A link on the nest: unsigned.
pub fn link_word(link: u16) -> Word
    ensures { result.bits ≡ link }
{
    Word::new(u64::from(link))
}

// A part or a link taken from the nest: the low 16 bits.
pub fn word_part(word: Word) -> u16
    ensures { result ≡ word_part word.bits }
{
    (word.bits() % PART) as u16
}

// An address: the sum of a base and a modifier, on 16 bits.
pub fn address(base: u16, modifier: u16) -> u16
    ensures { result ≡ address_sum base modifier }
{
    base.wrapping_add(modifier)
}

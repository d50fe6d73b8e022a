// Areas, and the words of an image.
ghost use Rattle.std.specs.Prelude.{◌≡◌, ◌+◌, ◌*◌, ◌<◌, ◌≤◌, ◌&&◌, length, nat_lt};
ghost use Rattle.host.specs.Calls.{unshaped, past, image_word, image_words};

use std::ops::Range;

// Where a program's area begins, and how many words it has.
#[derive(Clone, Copy, PartialEq, Eq, Debug)]
pub struct Area {
    pub base: u32,
    pub size: u32,
}

impl Area {
    // The place in the store after its last word.
    pub(crate) fn end(self) -> usize
        ensures { result ≡ self.base + self.size }
    {
        self.base as usize + self.size as usize
    }

    // The places of its words in the store.
    pub fn range(self) -> Range<usize>
        ensures start { result.start ≡ self.base }
        ensures end { result.end ≡ self.base + self.size }
    {
        self.base as usize..self.end()
    }

    // Whether its base or its size is no multiple of 32, or the size is 0.
    pub fn is_unshaped(self) -> bool
        ensures { result ≡ unshaped self.base self.size }
    {
        self.base % 32 != 0 || self.size % 32 != 0 || self.size == 0
    }

    // Whether it passes the end of a store of so many words, or word 32,768.
    pub fn is_past(self, words: usize) -> bool
        ensures { result ≡ past words self.base self.size }
    {
        words < self.end() || 32768 < self.end()
    }

    // Whether it has a word in common with another.
    pub(crate) fn overlaps(self, other: Area) -> bool
        ensures { result ≡ (nat_lt self.base (other.base + other.size) && nat_lt other.base (self.base + self.size)) }
    {
        (self.base as usize) < other.end() && (other.base as usize) < self.end()
    }
}

// A word of an image that its end cuts short: past the end are zeros.
fn cut_word(image: &[u8], k: usize) -> u64
    requires { k < 32768 }
    ensures { result ≡ image_word image.now k }
{
    let byte = |at: usize| image.get(6 * k + at).copied().unwrap_or(0);
    u64::from_be_bytes([0, 0, byte(0), byte(1), byte(2), byte(3), byte(4), byte(5)])
}

// Word k of an image: six bytes, the top byte first.
fn word_of(image: &[u8], k: usize) -> u64
    requires { k < 32768 }
    ensures { result ≡ image_word image.now k }
{
    match image.get(6 * k..6 * k + 6) {
        Some(six) => u64::from_be_bytes([0, 0, six[0], six[1], six[2], six[3], six[4], six[5]]),
        None => cut_word(image, k),
    }
}

// Fills an area with an image, then zeros.
pub fn fill(area: &mut [u64], image: &[u8])
    requires { length area.old ≤ 32768 }
    ensures { area.new ≡ image_words image.now (length area.old) }
{
    for (k, entry) in area.iter_mut().enumerate() {
        *entry = word_of(image, k);
    }
}

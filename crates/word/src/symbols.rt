// The eight symbols of a word, the highest first.
ghost use Rattle.std.specs.Prelude.{◌≡◌};
ghost use Rattle.word.specs.Symbols.{symbols_of, packed};

use crate::word::Word;
use std::array;

// A word parted into its symbols.
pub fn split(word: Word) -> [u8; 8]
    ensures { result ≡ symbols_of word.bits }
{
    let bits = word.bits();
    array::from_fn(|i| ((bits >> (42 - 6 * i)) % 64) as u8)
}

// Eight symbols packed into a word, each taken modulo 64.
pub fn pack(symbols: [u8; 8]) -> Word
    ensures { result.bits ≡ packed symbols }
{
    let bits = symbols
        .iter()
        .fold(0, |bits, s| (bits << 6) + u64::from(s % 64));
    Word::new(bits)
}

// What the functions of `word` answer.
ghost use Rattle.std.specs.Prelude.{◌≡◌, ◌↔◌, IsTrue};
ghost use Rattle.word_values.specs.Answers.{numbers_of};

use word::q::Q;
use word::word::{Checked, Word};

#[derive(Clone, Copy)]
pub enum Answer {
    Word(Word),
    Turned(Option<Word>),
    Part(u16),
    Value(i64),
    Checked(Checked),
    Q(Q),
    Symbols([u8; 8]),
}

impl Answer {
    // Whether these are the numbers of the answer, and no others.
    pub(crate) fn is(self, numbers: &[i128]) -> bool
        ensures { IsTrue result ↔ (numbers.now ≡ numbers_of self) }
    {
        match self {
            Answer::Turned(None) => numbers.is_empty(),
            Answer::Word(word) | Answer::Turned(Some(word)) => numbers
                == [i128::from(word.bits())].as_slice(),
            Answer::Part(part) => numbers == [i128::from(part)].as_slice(),
            Answer::Value(value) => numbers == [i128::from(value)].as_slice(),
            Answer::Checked(Checked { word, overflow }) => {
                numbers == [i128::from(word.bits()), i128::from(overflow)].as_slice()
            }
            Answer::Q(q) => numbers == [q.c, q.i, q.m].map(i128::from).as_slice(),
            Answer::Symbols(symbols) => numbers == symbols.map(i128::from).as_slice(),
        }
    }
}

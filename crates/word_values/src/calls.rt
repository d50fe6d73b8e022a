// The functions of `word`, called by name.
ghost use Rattle.std.specs.Prelude.{◌≡◌};
ghost use Rattle.std.specs.Option.{option_map};
ghost use Rattle.word_values.specs.Words.{word_in};

use crate::answer::Answer;
use word::q::{Q, address, link_word, part_word, word_part};
use word::symbols;
use word::word::Word;

// A number that is a word, without a sign.
fn word_of(n: i128) -> Option<Word>
    ensures { option_map (λ w. w.bits) result ≡ word_in n }
{
    let entry = u64::try_from(n).ok()?;
    (entry < 1 << 48).then_some(Word::new(entry))
}

fn q_of(c: i128, i: i128, m: i128) -> Option<Q> {
    let c = u16::try_from(c).ok()?;
    let i = u16::try_from(i).ok()?;
    let m = u16::try_from(m).ok()?;
    Some(Q { c, i, m })
}

// Functions of one number that need not be a word.
fn of_number(name: &str, n: i128) -> Option<Answer> {
    Some(match name {
        "new" => Answer::Word(Word::new(u64::try_from(n).ok()?)),
        "checked" => Answer::Checked(Word::checked(i64::try_from(n).ok()?)),
        "from_i16" => Answer::Word(Word::from(i16::try_from(n).ok()?)),
        "part_word" => Answer::Word(part_word(u16::try_from(n).ok()?)),
        "link_word" => Answer::Word(link_word(u16::try_from(n).ok()?)),
        _ => return of_one_word(name, word_of(n)?),
    })
}

fn of_one_word(name: &str, word: Word) -> Option<Answer> {
    Some(match name {
        "bits" => Answer::Word(word),
        "value" => Answer::Value(word.value()),
        "neg" => Answer::Checked(word.neg()),
        "abs" => Answer::Checked(word.abs()),
        "not" => Answer::Word(word.not()),
        "ones" => Answer::Word(word.ones()),
        "upper" => Answer::Word(word.upper()),
        "lower" => Answer::Word(word.lower()),
        "word_part" => Answer::Part(word_part(word)),
        "from_word" => Answer::Q(Q::from(word)),
        "split" => Answer::Symbols(symbols::split(word)),
        _ => return None,
    })
}

fn of_two_words(name: &str, a: Word, b: Word) -> Option<Answer> {
    Some(match name {
        "add" => Answer::Checked(a.add(b)),
        "sub" => Answer::Checked(a.sub(b)),
        "sign" => Answer::Word(a.sign(b)),
        "and" => Answer::Word(a.and(b)),
        "or" => Answer::Word(a.or(b)),
        "nev" => Answer::Word(a.nev(b)),
        "with_upper" => Answer::Word(a.with_upper(b)),
        "with_lower" => Answer::Word(a.with_lower(b)),
        _ => return None,
    })
}

fn of_shift(name: &str, length: i16, word: Word) -> Option<Answer> {
    Some(match name {
        "shift_logical" => Answer::Word(word.shift_logical(length)),
        "shift_arithmetic" => Answer::Checked(word.shift_arithmetic(length)),
        "shift_cyclic" => Answer::Turned(word.shift_cyclic(length)),
        _ => return None,
    })
}

// Functions of two numbers: two words, two parts, or a length and a word.
fn of_two(name: &str, a: i128, b: i128) -> Option<Answer> {
    if name == "address" {
        let sum = address(u16::try_from(a).ok()?, u16::try_from(b).ok()?);
        return Some(Answer::Part(sum));
    }
    if name.starts_with("shift") {
        return of_shift(name, i16::try_from(a).ok()?, word_of(b)?);
    }
    of_two_words(name, word_of(a)?, word_of(b)?)
}

fn of_q(name: &str, q: Q) -> Option<Answer> {
    Some(match name {
        "word" => Answer::Word(Word::from(q)),
        "advance" => Answer::Q(q.advance()),
        "retreat" => Answer::Q(q.retreat()),
        "negate_count" => Answer::Q(q.negate_count()),
        "count_down" => Answer::Q(q.count_down()),
        _ => return None,
    })
}

fn of_part_and_q(name: &str, part: u16, q: Q) -> Option<Answer> {
    Some(match name {
        "with_c" => Answer::Q(q.with_c(part)),
        "with_i" => Answer::Q(q.with_i(part)),
        "with_m" => Answer::Q(q.with_m(part)),
        _ => return None,
    })
}

fn of_symbols(name: &str, arguments: [i128; 8]) -> Option<Answer> {
    if name != "pack" {
        return None;
    }
    let mut eight = [0u8; 8];
    for (symbol, n) in eight.iter_mut().zip(arguments) {
        *symbol = u8::try_from(n).ok()?;
    }
    Some(Answer::Word(symbols::pack(eight)))
}

// Nothing where no function of that name takes these arguments.
pub(crate) fn call(name: &str, arguments: &[i128]) -> Option<Answer> {
    match *arguments {
        [n] => of_number(name, n),
        [a, b] => of_two(name, a, b),
        [c, i, m] => of_q(name, q_of(c, i, m)?),
        [part, c, i, m] => of_part_and_q(name, u16::try_from(part).ok()?, q_of(c, i, m)?),
        _ => of_symbols(name, arguments.try_into().ok()?),
    }
}

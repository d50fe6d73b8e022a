// The numbers and bytes of a line.
use crate::fault::Fault;
use std::alloc::Global;

// How many words there are, and how many parts of a Q.
pub const WORDS: i128 = 1 << 48;

pub const PARTS: i128 = 1 << 16;

// The numbers of a text, the three of a Q between strokes.
pub(crate) fn numbers(heap: Global, text: &str) -> Result<Vec<i128>, Fault> {
    let mut all = Vec::new(heap);
    for piece in text.split_whitespace() {
        if !matches!(piece.split('/').count(), 1 | 3) {
            return Err(Fault::Unreadable);
        }
        for number in piece.split('/') {
            all.push(number.parse::<i128>()?)?;
        }
    }
    Ok(all)
}

// The bytes of a text, two hexadecimal digits each.
pub(crate) fn bytes(heap: Global, text: &str) -> Result<Vec<u8>, Fault> {
    let mut all = Vec::new(heap);
    for piece in text.split_whitespace() {
        all.push(u8::from_str_radix(piece, 16)?)?;
    }
    Ok(all)
}

// A number below 0 as it is found where there are so many, in two's complement.
pub(crate) fn without_sign(n: i128, count: i128) -> i128 {
    if n < 0 { n.wrapping_add(count) } else { n }
}

pub(crate) fn word(n: i128) -> Result<u64, Fault> {
    if !(-WORDS / 2..WORDS).contains(&n) {
        return Err(Fault::Unreadable);
    }
    Ok(u64::try_from(without_sign(n, WORDS))?)
}

pub(crate) fn part(n: i128) -> Result<u16, Fault> {
    if !(-PARTS / 2..PARTS).contains(&n) {
        return Err(Fault::Unreadable);
    }
    Ok(u16::try_from(without_sign(n, PARTS))?)
}

pub(crate) fn bit(n: i128) -> Result<bool, Fault> {
    match n {
        0 => Ok(false),
        1 => Ok(true),
        _ => Err(Fault::Unreadable),
    }
}

// A line of values: a function's name, its arguments, =, and its results.
use crate::calls::call;
use arrayvec::ArrayVec;

// No function takes or answers so many numbers.
const TOO_MANY: usize = 9;

// The numbers of a text, of which those past the ninth are not kept; nothing where a piece is no number.
fn numbers(text: &str) -> Option<ArrayVec<i128, TOO_MANY>> {
    let mut all = ArrayVec::new();
    for piece in text.split_whitespace() {
        let number = piece.parse::<i128>().ok()?;
        if !all.is_full() {
            all.push(number);
        }
    }
    Some(all)
}

// The results of a line; `none` stands for no result.
fn results(text: &str) -> Option<ArrayVec<i128, TOO_MANY>> {
    if text == "none" {
        Some(ArrayVec::new())
    } else {
        numbers(text)
    }
}

// The function that a line names, and whether its results are those that the line gives. Nothing where nobody can read the line.
pub(crate) fn compared(line: &str) -> Option<(&str, bool)> {
    let (called, after) = line.split_once(" = ")?;
    let (name, before) = called.split_once(' ')?;
    let expected = results(after)?;
    let found = call(name, numbers(before)?.as_slice())?;
    Some((name, found.is(expected.as_slice())))
}

// What an order came to, as text.
use program::outcome::Outcome;
use std::fmt;

#[derive(Clone, Copy)]
pub(crate) struct Text(pub Outcome);

impl fmt::Display for Text {
    fn fmt<W: fmt::Write>(&self, f: &mut fmt::Formatter<W>) -> fmt::Result {
        match self.0 {
            Outcome::Done(0) => write!(f, "done"),
            Outcome::Done(symbols) => write!(f, "done, {symbols} moved"),
            Outcome::Broke(bound) => {
                write!(f, "{} {} {bound}", bound.violation(), bound.number())
            }
            Outcome::Refused(n, refusal, symbols) => {
                write!(f, "DEV {n} {refusal}, {symbols} moved")
            }
            Outcome::Out(word) => write!(f, "OUT {}", word.bits()),
        }
    }
}

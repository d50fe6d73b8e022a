// Why a turn ended.
ghost use Rattle.std.specs.Prelude.{◌≡◌, codes};
ghost use Rattle.std.specs.Option.{option_map};
ghost use Rattle.program.specs.Told.{told};
ghost use Rattle.host.specs.Causes.{cause_name, cause_of};
ghost use Rattle.host.specs.Turns.{cause_by, stops, done_by};

use device::refusal::Refusal;
use outlook::bound::{Bound, Violation};
use program::outcome::Outcome;
use word::word::Word;

#[derive(Clone, Copy, PartialEq, Eq, Debug)]
pub enum Cause {
    // LIV, NOUV or LOV: the order broke this bound first
    Broken(Bound),
    // DEV: the device on a buffer refused, after so many symbols
    Device(u8, Refusal, u32),
    // OUT, with its word
    Out(Word),
    // COUNT: no order gave another cause
    Count,
}

// A cause with the slot that was entered, and the order's place; for COUNT that of the next order.
#[derive(Clone, Copy, PartialEq, Eq, Debug)]
pub struct Ending {
    pub slot: u8,
    pub place: u16,
    pub cause: Cause,
}

// What handing a turn back answers: how it ended, and how many orders were done.
#[derive(Clone, Copy, PartialEq, Eq, Debug)]
pub struct Report {
    pub ending: Ending,
    pub orders: u64,
}

impl Cause {
    // Why a turn ends once an order came to this, if it does.
    pub fn of(outcome: Outcome) -> Option<Cause>
        ensures { option_map cause_of result ≡ cause_by (told outcome) }
    {
        match outcome {
            Outcome::Done(_) => None,
            Outcome::Broke(bound) => Some(Cause::Broken(bound)),
            Outcome::Refused(buffer, refusal, moved) => {
                Some(Cause::Device(buffer, refusal, moved))
            }
            Outcome::Out(word) => Some(Cause::Out(word)),
        }
    }

    pub fn name(self) -> &'static str
        ensures { result.now ≡ codes (cause_name (cause_of self)) }
    {
        match self {
            Cause::Broken(bound) => bound.violation().name(),
            Cause::Device(_, _, _) => "DEV",
            Cause::Out(_) => "OUT",
            Cause::Count => "COUNT",
        }
    }
}

// Whether it stops the program that an order came to this: LIV, NOUV and DEV do.
pub fn stops(outcome: Outcome) -> bool
    ensures { result ≡ stops (told outcome) }
{
    match outcome {
        Outcome::Done(_) | Outcome::Out(_) => false,
        Outcome::Broke(bound) => bound.violation() != Violation::Lov,
        Outcome::Refused(_, _, _) => true,
    }
}

// How many orders are done by an order that came to this, 1 or 0.
pub fn done_by(outcome: Outcome) -> u64
    ensures { result ≡ done_by (told outcome) }
{
    match outcome {
        Outcome::Done(_) | Outcome::Out(_) => 1,
        Outcome::Broke(_) | Outcome::Refused(_, _, _) => 0,
    }
}

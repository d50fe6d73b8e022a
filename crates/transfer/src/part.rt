// What moving the symbols of one word gave.
ghost use Rattle.std.specs.Prelude.{◌≡◌, Some};
ghost use Rattle.std.specs.Option.{option_map};
ghost use Rattle.device.specs.Words.{words};
ghost use Rattle.transfer.specs.Symbols.{ending, stop_of, why};

use device::refusal::Refusal;

// The symbol that ends a message.
const END_MESSAGE: u8 = 61;

// Why it ended before all eight were moved, or with the eighth: End Message was moved, or the device refused.
#[derive(Clone, Copy, PartialEq, Eq, Debug)]
pub(crate) enum Stop {
    EndMessage,
    Refused(Refusal),
}

impl Stop {
    // The refusal, if it was one.
    pub(crate) fn refusal(self) -> Option<Refusal>
        ensures { option_map words result ≡ why (stop_of (Some self)) }
    {
        match self {
            Stop::EndMessage => None,
            Stop::Refused(refusal) => Some(refusal),
        }
    }
}

// How many symbols were moved, and what stopped it; nothing did where the word is full and more may follow.
#[derive(Clone, Copy, PartialEq, Eq, Debug)]
pub(crate) struct Part {
    pub moved: u8,
    pub stop: Option<Stop>,
}

// Whether a symbol ends the movement: End Message does where it is heeded.
pub(crate) fn is_end(ends: bool, symbol: u8) -> bool
    ensures { result ≡ ending ends symbol }
{
    ends && symbol == END_MESSAGE
}

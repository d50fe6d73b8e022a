// What trying an order came to.
use device::refusal::Refusal;
use outlook::bound::Bound;
use word::word::Word;

#[derive(Clone, Copy, PartialEq, Eq, Debug)]
pub enum Outcome {
    // it was done, and moved so many symbols
    Done(u32),
    // it broke a bound, and changed nothing
    Broke(Bound),
    // the device on a buffer refused after so many symbols
    Refused(u8, Refusal, u32),
    // it was OUT, with this word
    Out(Word),
}

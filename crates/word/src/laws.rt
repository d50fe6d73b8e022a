// Laws of the definitions that the contracts cite. Each function's contract is one theorem.
ghost use Rattle.std.specs.Prelude.{ℕ};
ghost use Rattle.word.specs.Examples.{Examples};
ghost use Rattle.word.specs.Laws.{Wraps, PartLaws, WordLaws};
ghost use Rattle.word.specs.Places.{PlaceLaws};
ghost use Rattle.word.specs.Symbols.{RoundTrips};

// What wrapping does, for every width w.
pub fn wrapping_holds()
    ensures { (w : ℕ) → Wraps w }
{}

// What follows at 16 bits for the parts of a Q, and at 48 for words.
pub fn undone_holds()
    ensures parts { PartLaws }
    ensures words { WordLaws }
{}

// AND, OR, exclusive or and NOT go place by place, and the ones are counted over the places.
pub fn places_hold()
    ensures { PlaceLaws }
{}

// A word parted into its symbols and packed again is the same word, and the other way round.
pub fn symbols_round_trip()
    ensures { RoundTrips }
{}

// NEG of -2^47, SIGN of -1 and 0, SHA -1 of 3 and of -3, SHC 1 of 2^47: all of them together.
pub fn examples_hold()
    ensures { Examples }
{}

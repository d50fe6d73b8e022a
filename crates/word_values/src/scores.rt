// How many values agreed and how many did not, for each function and in all.
ghost use Rattle.std.specs.Prelude.{◌≡◌, ◌+◌, ◌-◌, ◌^◌, min, if◌then◌else◌};

use std::alloc::{AllocError, Global};
use std::collections::BTreeMap;
use std::fmt;

#[derive(Clone, Copy, Default)]
struct Score {
    agree: u32,
    differ: u32,
}

#[derive(Drop)]
pub struct Scores {
    by_name: BTreeMap<String, Score>,
    all: Score,
}

impl Score {
    // One value more; the counts stay at 2^32 - 1.
    fn with_one(self, agrees: bool) -> Score
        ensures agree { result.agree ≡ (if agrees then min (self.agree + 1) (2 ^ 32 - 1) else self.agree) }
        ensures differ { result.differ ≡ (if agrees then self.differ else min (self.differ + 1) (2 ^ 32 - 1)) }
    {
        if agrees {
            Score {
                agree: self.agree.saturating_add(1),
                ..self
            }
        } else {
            Score {
                differ: self.differ.saturating_add(1),
                ..self
            }
        }
    }

    // How many values there were.
    fn values(self) -> u32
        ensures { result ≡ min (self.agree + self.differ) (2 ^ 32 - 1) }
    {
        self.agree.saturating_add(self.differ)
    }
}

impl Scores {
    pub(crate) fn new(heap: Global) -> Scores {
        Scores {
            by_name: BTreeMap::new(heap),
            all: Score::default(),
        }
    }

    // One more value of a function.
    pub(crate) fn note(
        &mut self,
        heap: Global,
        name: &str,
        agrees: bool,
    ) -> Result<(), AllocError> {
        let score = self
            .by_name
            .entry(String::from_str(heap, name)?)?
            .or_default();
        *score = score.with_one(agrees);
        self.all = self.all.with_one(agrees);
        Ok(())
    }

    // How many values differ in all.
    pub(crate) fn differing(&self) -> u32
        ensures { result ≡ self.now.all.differ }
    {
        self.all.differ
    }
}

// A line for each function, and one for all.
impl fmt::Display for Scores {
    fn fmt<W: fmt::Write>(&self, f: &mut fmt::Formatter<W>) -> fmt::Result {
        for (name, score) in self.by_name.iter() {
            let agree = score.agree;
            let values = score.values();
            writeln!(f, "{name}: {agree} of {values} agree")?;
        }
        let Score { agree, differ } = self.all;
        let values = self.all.values();
        write!(f, "{values} values, {agree} agree, {differ} differ")
    }
}

// Theorems about moves, each as the contract of a function.
ghost use Rattle.transfer.specs.Keeping.{DrumKeeps};
ghost use Rattle.transfer.specs.Samples.{Samples};

// A drum keeps what is written on it.
pub fn drum_keeps()
    ensures { DrumKeeps }
{}

// Moves of a few words, worked out.
pub fn samples()
    ensures { Samples }
{}

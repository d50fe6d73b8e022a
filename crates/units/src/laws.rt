// Laws of frames and readers. Each function's contract is one law.
ghost use Rattle.units.specs.Examples.{TwoFramesRead, FramesReadBack};

// The frames 33 and 189 read as the symbols 33 and 61, head 2, and then "no more".
pub fn two_frames_read()
    ensures { TwoFramesRead }
{}

// The frame that is punched for a symbol is sound, and is read as that symbol.
pub fn frames_read_back()
    ensures { FramesReadBack }
{}

// The frames that are punched for symbols.
ghost use Rattle.std.specs.Prelude.{◌≡◌, ◌%◌, map, IfOk};
ghost use Rattle.tape_copy.specs.Copying.{CopiesReadBack};
ghost use Rattle.units.specs.Frames.{frame_for};

use std::alloc::{AllocError, Global};
use units::marks::frame_for;

// A sound frame for each symbol, or want of memory. What is read of the frames is those symbols.
pub fn frames_for(heap: Global, symbols: &[u8]) -> Result<Vec<u8>, AllocError>
    ensures frames { IfOk result (λ v. v.items ≡ map (λ s. frame_for (s % 64)) symbols.now) }
    ensures back { CopiesReadBack }
{
    symbols
        .iter()
        .map(|symbol| frame_for(*symbol))
        .collect(heap)
}

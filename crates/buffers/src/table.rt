// The table of the sixteen buffers.
ghost use Rattle.std.specs.Prelude.{◌≡◌, false, length};
ghost use Rattle.buffers.specs.Buffers.{Quiet};

use crate::buffer::Buffer;

mod changes;
mod questions;

#[derive(Drop)]
pub struct Buffers {
    table: [Buffer; 16],
    // false where surely no buffer moves words, so that nothing is locked
    moving: bool,
    ghost sixteen: { length table ≡ 16 },
    ghost quiet: { moving ≡ false → Quiet table },
}

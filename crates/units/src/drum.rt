// The drum: 512 words of eight symbols, zero at first; it reads, writes and seeks.
ghost use Rattle.std.specs.Prelude.{◌≡◌, ◌≤◌, length, replicate};
ghost use Rattle.device.specs.Meaning.{Below};
ghost use Rattle.units.specs.Units.{drum_of};
ghost use Rattle.std.proofs.Common.{rules};

use device::device::Device;
use device::refusal::{NotWriting, Refusal};

#[derive(Drop)]
pub struct Drum {
    cells: [u8; 4096],
    head: u16,
    ghost full: { length cells ≡ 4096 },
    ghost symbols: { Below 64 cells },
    ghost within: { head ≤ 4096 },
}

impl Drum {
    // A drum of zeros, its head at the first cell.
    pub fn new() -> Drum
        ensures { drum_of result.cells result.head ≡ drum_of (replicate 4096 0) 0 }
    {
        Drum {
            cells: [0; 4096],
            head: 0,
        }
    }
}

impl Device for Drum {
    ghost meaning = { λ d. drum_of d.cells d.head };

    ghost sound = { Prim.search rules };

    fn read(&mut self) -> Result<u8, Refusal> {
        let symbol = *self
            .cells
            .get(usize::from(self.head))
            .ok_or(Refusal::NoMore)?;
        self.head += 1;
        Ok(symbol)
    }

    fn write(&mut self, symbol: u8) -> Result<(), Refusal> {
        let at = usize::from(self.head);
        if at >= self.cells.len() {
            return Err(Refusal::Full);
        }
        self.cells[at] = symbol % 64;
        self.head += 1;
        Ok(())
    }

    fn seek(&mut self, cell: u16) -> Result<(), Refusal> {
        if cell > 4096 {
            return Err(Refusal::NoSuchCell);
        }
        self.head = cell;
        Ok(())
    }

    fn head(&self) -> u16 {
        self.head
    }

    fn writing(&self) -> Result<(), NotWriting> {
        Ok(())
    }
}

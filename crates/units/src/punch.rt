// The punch: it starts empty, and only writes.
ghost use Rattle.std.specs.Prelude.{◌≡◌, ◌≤◌, [], IfOk, vec_len, vec_capacity};
ghost use Rattle.device.specs.Meaning.{Below};
ghost use Rattle.units.specs.Units.{punch_of};
ghost use Rattle.std.proofs.Common.{rules};

use device::device::Device;
use device::refusal::{NotWriting, Refusal};
use std::alloc::{AllocError, Global};

#[derive(Drop)]
pub struct Punch {
    cells: Vec<u8>,
    ghost room: { 4096 ≤ vec_capacity cells },
    ghost few: { vec_len cells ≤ 4096 },
    ghost symbols: { Below 64 cells.items },
}

impl Punch {
    // A punch with no cell, or want of memory.
    pub fn new(heap: Global) -> Result<Punch, AllocError>
        ensures { IfOk result (λ p. punch_of p.cells.items ≡ punch_of []) }
    {
        let cells = Vec::with_capacity(heap, 4096)?;
        Ok(Punch { cells })
    }

    // What was punched, a symbol each.
    pub fn cells(&self) -> &[u8]
        ensures { result.now ≡ self.now.cells.items }
    {
        self.cells.as_slice()
    }
}

impl Device for Punch {
    ghost meaning = { λ p. punch_of p.cells.items };

    ghost sound = { Prim.search rules };

    fn read(&mut self) -> Result<u8, Refusal> {
        Err(Refusal::WrongWay)
    }

    fn write(&mut self, symbol: u8) -> Result<(), Refusal> {
        if self.cells.len() >= 4096 {
            return Err(Refusal::Full);
        }
        self.cells.push_reserved(symbol % 64);
        Ok(())
    }

    fn seek(&mut self, _cell: u16) -> Result<(), Refusal> {
        Err(Refusal::WrongWay)
    }

    fn head(&self) -> u16 {
        self.cells.len() as u16
    }

    fn writing(&self) -> Result<(), NotWriting> {
        Ok(())
    }
}

// The tape reader: it starts empty, is filled with frames, and only reads.
ghost use Rattle.std.specs.Prelude.{◌≡◌, ◌≤◌, [], map, IfOk, vec_len, vec_capacity};
ghost use Rattle.device.specs.Words.{numbered};
ghost use Rattle.units.specs.Frames.{cell_of};
ghost use Rattle.units.specs.Readers.{reader_sound};
ghost use Rattle.units.specs.Units.{reader_of, fill_answer, filled};
ghost use Rattle.std.proofs.Common.{rules};

use super::marks::cell_of;
use device::device::Device;
use device::refusal::{InputRefusal, NotWriting, Refusal};
use std::alloc::{AllocError, Global};

#[derive(Drop)]
pub struct TapeReader {
    // a frame becomes its cell when it is read
    frames: Vec<u8>,
    head: u16,
    ghost room: { 4096 ≤ vec_capacity frames },
    ghost few: { vec_len frames ≤ 4096 },
    ghost within: { head ≤ vec_len frames },
}

impl TapeReader {
    // A reader with no tape, or want of memory.
    pub fn new(heap: Global) -> Result<TapeReader, AllocError>
        ensures { IfOk result (λ t. reader_of (map cell_of t.frames.items) t.head ≡ reader_of [] 0) }
    {
        let frames = Vec::with_capacity(heap, 4096)?;
        Ok(TapeReader { frames, head: 0 })
    }

    // A new tape in the place of the old one, at its first frame; over 4096 frames are refused by number 6.
    pub fn fill(&mut self, frames: &[u8]) -> Result<(), InputRefusal>
        ensures answer { numbered (λ u. u) result ≡ fill_answer frames.now }
        ensures after { reader_of (map cell_of self.new.frames.items) self.new.head ≡ filled frames.now (reader_of (map cell_of self.old.frames.items) self.old.head) }
    {
        if frames.len() > 4096 {
            return Err(InputRefusal::FramesOver4096);
        }
        self.frames.clear();
        self.head = 0;
        for frame in frames {
            self.frames.push_reserved(*frame);
        }
        Ok(())
    }
}

impl Device for TapeReader {
    ghost meaning = { λ t. reader_of (map cell_of t.frames.items) t.head };

    ghost sound = { λ t. reader_sound t.frames.items t.head (Prim.search rules) (Prim.search rules) };

    fn read(&mut self) -> Result<u8, Refusal> {
        let frame = *self
            .frames
            .get(usize::from(self.head))
            .ok_or(Refusal::NoMore)?;
        self.head += 1;
        cell_of(frame).ok_or(Refusal::Damaged)
    }

    fn write(&mut self, _symbol: u8) -> Result<(), Refusal> {
        Err(Refusal::WrongWay)
    }

    fn seek(&mut self, _cell: u16) -> Result<(), Refusal> {
        Err(Refusal::WrongWay)
    }

    fn head(&self) -> u16 {
        self.head
    }

    fn writing(&self) -> Result<(), NotWriting> {
        Err(NotWriting::WrongWay)
    }
}

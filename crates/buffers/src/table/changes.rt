// What can be done to the buffers. A number past the last buffer changes nothing.
ghost use Rattle.std.specs.Prelude.{◌≡◌, map, replicate, slice_set};
ghost use Rattle.buffers.specs.Buffers.{free, records, with_work, with_owner, released};
ghost use Rattle.buffers.specs.declared.buffer.Work.TheVariants.{Idle};

use super::Buffers;
use crate::buffer::{Buffer, Work};
use std::array;

impl Buffers {
    // All free.
    pub fn new() -> Buffers
        ensures { result.table ≡ replicate 16 free }
    {
        Buffers {
            table: [Buffer::FREE; 16],
            moving: false,
        }
    }

    // A buffer begins some work.
    pub fn begin(&mut self, n: u8, work: Work)
        ensures { self.new.table ≡ slice_set self.old.table n (with_work work (records self.old.table n)) }
    {
        let n = usize::from(n);
        if n < self.table.len() {
            self.table[n].work = work;
            self.moving = self.moving || work.is_moving();
        }
    }

    // A buffer becomes idle.
    pub fn end(&mut self, n: u8)
        ensures { self.new.table ≡ slice_set self.old.table n (with_work Idle (records self.old.table n)) }
    {
        let n = usize::from(n);
        if n < self.table.len() {
            self.table[n].work = Work::Idle;
            self.moving = self.any_moving();
        }
    }

    // A buffer is allotted to a slot.
    pub fn allot(&mut self, n: u8, slot: u8)
        ensures { self.new.table ≡ slice_set self.old.table n (with_owner slot (records self.old.table n)) }
    {
        let n = usize::from(n);
        if n < self.table.len() {
            self.table[n].owner = Some(slot);
        }
    }

    // All buffers of a slot become free.
    pub fn release(&mut self, slot: u8)
        ensures { self.new.table ≡ map (released slot) self.old.table }
    {
        let table = self.table;
        self.table = array::from_fn(|k| table[k].released_by(slot));
    }
}

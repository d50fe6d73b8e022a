// What can be asked of the buffers.
ghost use Rattle.std.specs.Prelude.{◌≡◌, ◌&&◌};
ghost use Rattle.buffers.specs.Buffers.{records, work_of, locked_between, busy_of, any_below, is_moving};

use super::Buffers;
use crate::buffer::{Buffer, Work};

impl Buffers {
    // The record of a buffer; past the last one it is free.
    pub fn record(&self, n: u16) -> Buffer
        ensures { result ≡ records self.now.table n }
    {
        self.table
            .get(usize::from(n))
            .copied()
            .unwrap_or(Buffer::FREE)
    }

    // What a slot's buffer is at; nothing where it is not the slot's.
    pub fn work_of(&self, slot: u8, n: u16) -> Option<Work>
        ensures { result ≡ work_of slot (records self.now.table n) }
    {
        let buffer = self.record(n);
        buffer.is_held_by(slot).then_some(buffer.work)
    }

    // Whether a slot's buffers lock one of the words from the first to the last address.
    pub fn locked(&self, slot: u8, first: u16, last: u16) -> bool
        ensures { result ≡ locked_between slot (records self.now.table) first last }
    {
        self.moving
            && self
                .table
                .iter()
                .any(|buffer| buffer.locks_for(slot, first, last))
    }

    // Whether a slot has a busy buffer.
    pub fn any_busy(&self, slot: u8) -> bool
        ensures { result ≡ busy_of slot (records self.now.table) }
    {
        (0..16u8).any(|k| self.record(u16::from(k)).is_busy_for(slot))
    }

    pub(super) fn any_moving(&self) -> bool
        ensures { result ≡ any_below 16 (λ k. is_moving (records self.now.table k).work) }
    {
        self.table.iter().any(|buffer| buffer.work.is_moving())
    }
}

// One buffer: whose it is, and what it is at.
ghost use Rattle.std.specs.Prelude.{◌≡◌, ◌+◌, ◌-◌, ◌&&◌};
ghost use Rattle.buffers.specs.Buffers.{holds, is_busy, is_moving, locks, any_below, released};
ghost use Rattle.buffers.specs.declared.buffer.Work.TheVariants.{Moving};

// Idle, busy with a seek, or busy with the words from the first to the last address, whose groups are locked.
#[derive(Clone, Copy, PartialEq, Eq, Debug)]
pub enum Work {
    Idle,
    Seeking,
    Moving(u16, u16),
}

// The slot that it is allotted to, if any, and its work.
#[derive(Clone, Copy, PartialEq, Eq, Debug)]
pub struct Buffer {
    pub owner: Option<u8>,
    pub work: Work,
}

impl Work {
    pub fn is_busy(self) -> bool
        ensures { result ≡ is_busy self }
    {
        !matches!(self, Work::Idle)
    }

    pub(crate) fn is_moving(self) -> bool
        ensures { result ≡ is_moving self }
    {
        matches!(self, Work::Moving(_, _))
    }

    // Whether it locks one of the words from the first to the last address.
    pub(crate) fn locks_any(self, first: u16, last: u16) -> bool
        ensures { result ≡ any_below (last + 1 - first) (λ j. locks self (first + j)) }
    {
        match self {
            Work::Moving(from, to) => groups_meet(from, to, first, last),
            Work::Idle | Work::Seeking => false,
        }
    }
}

// Whether the groups of the words from `from` to `to` have one of the words from the first to the last address.
fn groups_meet(from: u16, to: u16, first: u16, last: u16) -> bool
    ensures { result ≡ any_below (last + 1 - first) (λ j. locks (Moving from to) (first + j)) }
{
    first <= last && (from / 32).max(first / 32) <= (to / 32).min(last / 32)
}

impl Buffer {
    // Nobody's and idle.
    pub(crate) const FREE: Buffer = Buffer {
        owner: None,
        work: Work::Idle,
    };

    // Whether it is a slot's.
    pub fn is_held_by(self, slot: u8) -> bool
        ensures { result ≡ holds slot self }
    {
        self.owner == Some(slot)
    }

    // Whether it is a slot's and busy.
    pub(crate) fn is_busy_for(self, slot: u8) -> bool
        ensures { result ≡ (holds slot self && is_busy self.work) }
    {
        self.is_held_by(slot) && self.work.is_busy()
    }

    // The same, made free if it is a slot's.
    pub(crate) fn released_by(self, slot: u8) -> Buffer
        ensures { result ≡ released slot self }
    {
        if self.is_held_by(slot) {
            Buffer::FREE
        } else {
            self
        }
    }

    // Whether it is a slot's and locks one of the words from the first to the last address.
    pub(crate) fn locks_for(self, slot: u8, first: u16, last: u16) -> bool
        ensures { result ≡ (holds slot self && any_below (last + 1 - first) (λ j. locks self.work (first + j))) }
    {
        self.is_held_by(slot) && self.work.locks_any(first, last)
    }
}

// One program.
ghost use Rattle.std.specs.Prelude.{◌≡◌, Some};
ghost use Rattle.host.specs.Calls.{fresh};
ghost use Rattle.slots.specs.Held.{program_of, state_of};

use super::{Program, State};
use crate::area::Area;
use registers::registers::Registers;

impl Program {
    // A program as it is loaded.
    pub(super) fn new(area: Area) -> Program
        ensures { program_of result ≡ fresh area.base area.size }
    {
        let registers = Registers::new();
        registers.sound();
        Program {
            area,
            registers,
            stopped: false,
        }
    }

    pub(super) fn state(&self) -> State
        ensures { result ≡ state_of (Some (program_of self.now)) }
    {
        if self.stopped {
            State::Stopped
        } else {
            State::Ready
        }
    }
}

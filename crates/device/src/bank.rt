// A bank: devices on buffers 0 to 15, each called by its number; and the bank with none.
ghost use Rattle.std.specs.Prelude.{◌≡◌};
ghost use Rattle.device.specs.Bank.{Devices, Whole, no_devices, bank_answer, bank_after};
ghost use Rattle.device.specs.Meaning.{read_answer, read_after, write_answer, write_after, seek_answer, seek_after, head_answer};
ghost use Rattle.device.specs.Words.{said};
ghost use Rattle.std.proofs.Common.{rules};

use super::refusal::Refusal;

// A call at a number answers as the device there does, changes that device alike, and no other.
pub trait Bank {
    ghost devices: { Self → Devices };

    fn read(&mut self, n: u8) -> Result<u8, Refusal>
        ensures answer { said result ≡ bank_answer read_answer (devices self.old) n }
        ensures after { devices self.new ≡ bank_after read_after (devices self.old) n };

    fn write(&mut self, n: u8, symbol: u8) -> Result<(), Refusal>
        ensures answer { said result ≡ bank_answer write_answer (devices self.old) n }
        ensures after { devices self.new ≡ bank_after (λ m. write_after m symbol) (devices self.old) n };

    fn seek(&mut self, n: u8, cell: u16) -> Result<(), Refusal>
        ensures answer { said result ≡ bank_answer (λ m. seek_answer m cell) (devices self.old) n }
        ensures after { devices self.new ≡ bank_after (λ m. seek_after m cell) (devices self.old) n };

    fn head(&self, n: u8) -> Result<u16, Refusal>
        ensures { said result ≡ bank_answer head_answer (devices self.now) n };

    ghost whole: { (b : Self) → Whole (devices b) };
}

// No buffer has a device.
#[derive(Drop)]
pub struct EmptyBank;

impl Bank for EmptyBank {
    ghost devices = { λ _. no_devices };

    ghost whole = { Prim.search rules };

    fn read(&mut self, _n: u8) -> Result<u8, Refusal> {
        Err(Refusal::NothingThere)
    }

    fn write(&mut self, _n: u8, _symbol: u8) -> Result<(), Refusal> {
        Err(Refusal::NothingThere)
    }

    fn seek(&mut self, _n: u8, _cell: u16) -> Result<(), Refusal> {
        Err(Refusal::NothingThere)
    }

    fn head(&self, _n: u8) -> Result<u16, Refusal> {
        Err(Refusal::NothingThere)
    }
}

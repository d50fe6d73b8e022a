// A device, by its meaning: cells, a head, a capacity, and what it is able to do.
ghost use Rattle.std.specs.Prelude.{◌≡◌};
ghost use Rattle.device.specs.Meaning.{Meaning, Sound, read_answer, read_after, write_answer, write_after, seek_answer, seek_after};
ghost use Rattle.device.specs.Words.{said};

use super::refusal::{NotWriting, Refusal};

// Each call answers as the meaning does, and leaves the meaning that a call of its kind leaves.
pub trait Device {
    ghost meaning: { Self → Meaning };

    fn read(&mut self) -> Result<u8, Refusal>
        ensures answer { said result ≡ read_answer (meaning self.old) }
        ensures after { meaning self.new ≡ read_after (meaning self.old) };

    fn write(&mut self, symbol: u8) -> Result<(), Refusal>
        ensures answer { said result ≡ write_answer (meaning self.old) }
        ensures after { meaning self.new ≡ write_after (meaning self.old) symbol };

    fn seek(&mut self, cell: u16) -> Result<(), Refusal>
        ensures answer { said result ≡ seek_answer (meaning self.old) cell }
        ensures after { meaning self.new ≡ seek_after (meaning self.old) cell };

    fn head(&self) -> u16
        ensures { result ≡ (meaning self.now).head };

    // Whether it writes, and if not, why: the layers ask this.
    fn writing(&self) -> Result<(), NotWriting>
        ensures { result ≡ (meaning self.now).writing };

    ghost sound: { (d : Self) → Sound (meaning d) };
}

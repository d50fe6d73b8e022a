// A device plugged on a buffer above a bank, hiding what the bank has there.
ghost use Rattle.std.specs.Prelude.{◌≡◌, ◌==◌};
ghost use Rattle.device.specs.Bank.{plugged};
ghost use Rattle.device.specs.Banks.{plugged_whole};

use super::bank::Bank;
use super::buffer::BufferNumber;
use super::device::Device;
use super::refusal::Refusal;

#[derive(Drop)]
pub struct Plugged<D, B> {
    device: D,
    buffer: BufferNumber,
    below: B,
}

impl<D, B> Plugged<D, B> {
    pub fn new(device: D, buffer: BufferNumber, below: B) -> Plugged<D, B>
        ensures device { result.device ≡ device }
        ensures buffer { result.buffer ≡ buffer }
        ensures below { result.below ≡ below }
    {
        Plugged {
            device,
            buffer,
            below,
        }
    }

    // Whether a number is the device's own.
    fn is_here(&self, n: u8) -> bool
        ensures { result ≡ (n == self.now.buffer.number) }
    {
        n == u8::from(self.buffer)
    }

    pub fn device(&self) -> &D
        ensures { result.now ≡ self.now.device }
    {
        &self.device
    }

    // The bank below.
    pub fn below(&self) -> &B
        ensures { result.now ≡ self.now.below }
    {
        &self.below
    }

    // Unplugs the device, and gives both back.
    pub fn unplug(self) -> (D, B)
        ensures device { result.0 ≡ self.device }
        ensures below { result.1 ≡ self.below }
    {
        (self.device, self.below)
    }
}

impl<D: Device, B: Bank> Bank for Plugged<D, B> {
    ghost devices = { λ p. plugged (B.Bank.devices p.below) p.buffer.number (D.Device.meaning p.device) };

    ghost whole = { λ p. plugged_whole _ _ _ (B.Bank.whole p.below) p.buffer.few (D.Device.sound p.device) };

    fn read(&mut self, n: u8) -> Result<u8, Refusal> {
        if self.is_here(n) {
            self.device.read()
        } else {
            self.below.read(n)
        }
    }

    fn write(&mut self, n: u8, symbol: u8) -> Result<(), Refusal> {
        if self.is_here(n) {
            self.device.write(symbol)
        } else {
            self.below.write(n, symbol)
        }
    }

    fn seek(&mut self, n: u8, cell: u16) -> Result<(), Refusal> {
        if self.is_here(n) {
            self.device.seek(cell)
        } else {
            self.below.seek(n, cell)
        }
    }

    fn head(&self, n: u8) -> Result<u16, Refusal> {
        if self.is_here(n) {
            Ok(self.device.head())
        } else {
            self.below.head(n)
        }
    }
}

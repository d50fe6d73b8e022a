// Ring-off: a device as it is, but that where it would write, it has no ring.
ghost use Rattle.std.specs.Prelude.{◌≡◌};
ghost use Rattle.device.specs.Layers.{without_ring};
ghost use Rattle.std.proofs.Common.{rules};

use super::device::Device;
use super::refusal::{NotWriting, Refusal};

#[derive(Drop)]
pub struct RingOff<D> {
    below: D,
}

impl<D> RingOff<D> {
    pub fn new(below: D) -> RingOff<D>
        ensures { result.below ≡ below }
    {
        RingOff { below }
    }

    pub fn into_inner(self) -> D
        ensures { result ≡ self.below }
    {
        self.below
    }
}

impl<D: Device> Device for RingOff<D> {
    ghost meaning = { λ r. without_ring (D.Device.meaning r.below) };

    ghost sound = { Prim.search rules };

    fn read(&mut self) -> Result<u8, Refusal> {
        self.below.read()
    }

    fn write(&mut self, _symbol: u8) -> Result<(), Refusal> {
        self.writing().map_err(Refusal::from)
    }

    fn seek(&mut self, cell: u16) -> Result<(), Refusal> {
        self.below.seek(cell)
    }

    fn head(&self) -> u16 {
        self.below.head()
    }

    fn writing(&self) -> Result<(), NotWriting> {
        self.below.writing().and(Err(NotWriting::NoRing))
    }
}

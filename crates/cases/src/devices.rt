// The devices of a case, each on its buffer; the buffers from 6 on have none.
use crate::fault::Fault;
use device::bank::EmptyBank;
use device::buffer::BufferNumber;
use device::code_changer::CodeChanger;
use device::code_table::CodeTable;
use device::plugged::Plugged;
use device::ring_off::RingOff;
use std::alloc::Global;
use std::array;
use units::drum::Drum;
use units::punch::Punch;
use units::reader::TapeReader;

type Drums = Plugged<Drum, Plugged<RingOff<Drum>, Plugged<CodeChanger<Drum>, EmptyBank>>>;

// On 1 a tape reader, on 2 a punch, on 3 a drum, on 4 a drum without its ring, on 5 a drum that shows symbol s as 63 - s.
pub type Devices = Plugged<TapeReader, Plugged<Punch, Drums>>;

fn drums() -> Result<Drums, Fault> {
    let mirror: [u8; 64] = array::from_fn(|s| 63 - s as u8);
    let changer = CodeChanger::new(CodeTable::try_from(mirror)?, Drum::new());
    let changed = Plugged::new(changer, BufferNumber::try_from(5)?, EmptyBank);
    let ring_off = Plugged::new(
        RingOff::new(Drum::new()),
        BufferNumber::try_from(4)?,
        changed,
    );
    Ok(Plugged::new(Drum::new(), BufferNumber::try_from(3)?, ring_off))
}

// The devices, with these frames in the reader.
pub(crate) fn devices(heap: Global, frames: &[u8]) -> Result<Devices, Fault> {
    let mut reader = TapeReader::new(heap)?;
    reader.fill(frames)?;
    let punch = Plugged::new(Punch::new(heap)?, BufferNumber::try_from(2)?, drums()?);
    Ok(Plugged::new(reader, BufferNumber::try_from(1)?, punch))
}

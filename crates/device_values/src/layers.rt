// Ring-off and the code changer over a drum.
use device::code_changer::CodeChanger;
use device::code_table::CodeTable;
use device::device::Device;
use device::ring_off::RingOff;
use std::array;
use units::drum::Drum;
use units::reader::TapeReader;

// Where a drum writes, ring-off does not; where a reader does not write, ring-off changes nothing.
pub(crate) fn run_ring_off(rt: &HostRuntime) -> anyhow::Result<()> {
    let mut drum = RingOff::new(Drum::new());
    let write = drum.write(5);
    let seek = drum.seek(4096);
    let beyond = drum.seek(4097);
    let read = drum.read();
    let head = drum.head();
    println!(rt; "ring-off drum: write {write:?}, seek 4096 {seek:?}, seek 4097 {beyond:?}")?;
    println!(rt; "ring-off drum: read at the end {read:?}, head {head}")?;
    let mut drum = drum.into_inner();
    let full = drum.write(5);
    println!(rt; "drum at 4096: write {full:?}")?;
    let mut reader = RingOff::new(TapeReader::new(rt.alloc())?);
    let write = reader.write(5);
    println!(rt; "ring-off reader: write {write:?}")?;
    Ok(())
}

// The table turns each symbol s into 63 - s.
pub(crate) fn run_changer(rt: &HostRuntime) -> anyhow::Result<()> {
    let shown: [u8; 64] = array::from_fn(|symbol| 63 - symbol as u8);
    let mut drum = CodeChanger::new(CodeTable::try_from(shown)?, Drum::new());
    let zero = drum.read();
    let write = drum.write(75);
    let back = drum.seek(1);
    let eleven = drum.read();
    println!(rt;
        "changed drum: read {zero:?}, write 75 {write:?}, seek {back:?}, read {eleven:?}"
    )?;
    let mut drum = drum.into_inner();
    let back = drum.seek(1);
    let hidden = drum.read();
    println!(rt; "the drum below: seek {back:?}, read {hidden:?}")?;
    let mut reader = TapeReader::new(rt.alloc())?;
    reader.fill(&[33, 1])?;
    let mut reader = CodeChanger::new(CodeTable::try_from(shown)?, reader);
    let sound = reader.read();
    let damaged = reader.read();
    let end = reader.read();
    println!(rt; "changed reader: read {sound:?}, {damaged:?}, {end:?}")?;
    Ok(())
}

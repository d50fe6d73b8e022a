// The job: the tape to the drum and compared, to the punch, and what was punched to the copy.
use super::failure::Failure;
use super::report::{print_damaged, print_text};
use device::bank::{Bank, EmptyBank};
use device::buffer::BufferNumber;
use device::device::Device;
use device::plugged::Plugged;
use std::fs;
use tape_copy::frames::frames_for;
use tape_copy::reading::read_out;
use tape_copy::writing::write_in;
use units::drum::Drum;
use units::punch::Punch;
use units::reader::TapeReader;

const READER: u8 = 0;

const DRUM: u8 = 1;

const PUNCH: u8 = 2;

// The reader above the drum above the punch.
type Devices = Plugged<TapeReader, Plugged<Drum, Plugged<Punch, EmptyBank>>>;

pub(crate) fn copy_tape(rt: &HostRuntime, from: &str, to: &str) -> Result<(), Failure> {
    let mut bank = devices(rt, from)?;
    let tape = read_out(rt.alloc(), &mut bank, READER)?;
    print_damaged(rt, tape.damaged.as_slice())?;
    let symbols = tape.symbols.as_slice();
    let sound = symbols.len();
    let damaged = tape.damaged.len();
    println!(rt; "reader: {sound} sound frames, {damaged} damaged")?;
    keep_on_drum(rt, &mut bank, symbols)?;
    write_all(rt, &mut bank, "punch", PUNCH, symbols)?;
    let frames = frames_for(rt.alloc(), bank.below().below().device().cells())?;
    fs::write(rt, to, frames.as_slice())?;
    let count = frames.len();
    println!(rt; "copy: {count} frames written to {to}")?;
    print_text(rt, symbols)?;
    Ok(())
}

// A reader filled from the file, a drum and a punch, each on its buffer.
fn devices(rt: &HostRuntime, from: &str) -> Result<Devices, Failure> {
    let frames = fs::read(rt, from).try_map_err(|reason| -> Result<Failure, Failure> {
        let path = from.to_string(rt.alloc())?;
        Ok(Failure::Unreadable { path, reason })
    })?;
    let count = frames.len();
    println!(rt; "tape: {count} frames in {from}")?;
    let mut reader = TapeReader::new(rt.alloc())?;
    reader.fill(frames.as_slice())?;
    let punch = Plugged::new(
        Punch::new(rt.alloc())?,
        BufferNumber::try_from(PUNCH)?,
        EmptyBank,
    );
    let drum = Plugged::new(Drum::new(), BufferNumber::try_from(DRUM)?, punch);
    Ok(Plugged::new(reader, BufferNumber::try_from(READER)?, drum))
}

// Writes symbols to a buffer, and says how many.
fn write_all<B: Bank>(
    rt: &HostRuntime,
    bank: &mut B,
    name: &str,
    buffer: u8,
    symbols: &[u8],
) -> Result<(), Failure> {
    let written = write_in(bank, buffer, symbols);
    let count = written.count;
    println!(rt; "{name}: {count} symbols written")?;
    match written.refusal {
        None => Ok(()),
        Some(refusal) => Err(refusal.into()),
    }
}

// Puts symbols on the drum from its first cell on, reads them back and compares.
fn keep_on_drum<B: Bank>(rt: &HostRuntime, bank: &mut B, symbols: &[u8]) -> Result<(), Failure> {
    bank.seek(DRUM, 0)?;
    write_all(rt, bank, "drum", DRUM, symbols)?;
    bank.seek(DRUM, 0)?;
    let back = read_out(rt.alloc(), bank, DRUM)?;
    let kept = back.symbols.as_slice();
    let count = symbols.len();
    if !kept.starts_with(symbols) {
        return Err(Failure::OtherSymbols);
    }
    println!(rt; "drum: {count} symbols read back as they were written")?;
    Ok(())
}

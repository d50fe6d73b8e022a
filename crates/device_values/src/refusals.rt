// A full punch, the calls of a bank, and the refusals of input by number.
use device::bank::{Bank, EmptyBank};
use device::buffer::BufferNumber;
use device::code_table::CodeTable;
use device::device::Device;
use device::plugged::Plugged;
use device::refusal::InputRefusal;
use units::drum::Drum;
use units::punch::Punch;
use units::reader::TapeReader;

// 4096 symbols are taken, and one more is not.
pub(crate) fn run_punch(rt: &HostRuntime) -> anyhow::Result<()> {
    let mut punch = Punch::new(rt.alloc())?;
    let mut last = Ok(());
    for _ in 0..4096 {
        last = punch.write(200);
    }
    let more = punch.write(1);
    let read = punch.read();
    let seek = punch.seek(0);
    let head = punch.head();
    println!(rt;
        "punch: the 4096th {last:?}, the next {more:?}, read {read:?}, seek {seek:?}, head {head}"
    )?;
    if let Some(cell) = punch.cells().last() {
        println!(rt; "punch: 200 is punched as {cell}")?;
    }
    Ok(())
}

// A punch on buffer 15 hides the drum that is plugged there below it.
pub(crate) fn run_bank(rt: &HostRuntime) -> anyhow::Result<()> {
    let below = Plugged::new(Drum::new(), BufferNumber::try_from(15)?, EmptyBank);
    let punch = Punch::new(rt.alloc())?;
    let mut bank = Plugged::new(punch, BufferNumber::try_from(15)?, below);
    let write = bank.write(15, 7);
    let read = bank.read(15);
    let head = bank.head(15);
    let other = bank.head(14);
    let over = bank.seek(16, 0);
    println!(rt;
        "bank: write 15 {write:?}, read 15 {read:?}, head 15 {head:?}, head 14 {other:?}, seek 16 {over:?}"
    )?;
    let (_, mut below) = bank.unplug();
    let read = below.read(15);
    let head = below.head(15);
    println!(rt; "the bank below: read 15 {read:?}, head 15 {head:?}")?;
    Ok(())
}

// Buffer 16, 4097 frames, and a table that holds a symbol twice.
pub(crate) fn run_input(rt: &HostRuntime) -> anyhow::Result<()> {
    if let Err(refusal) = BufferNumber::try_from(16) {
        print_refusal(rt, refusal)?;
    }
    let mut reader = TapeReader::new(rt.alloc())?;
    let frames = [0u8; 4097];
    if let Err(refusal) = reader.fill(&frames) {
        print_refusal(rt, refusal)?;
    }
    reader.fill(&frames[0..4096])?;
    if let Err(refusal) = CodeTable::try_from([0; 64]) {
        print_refusal(rt, refusal)?;
    }
    Ok(())
}

fn print_refusal(rt: &HostRuntime, refusal: InputRefusal) -> anyhow::Result<()> {
    let number = refusal.number();
    println!(rt; "{number}: {refusal}")?;
    Ok(())
}

// The lines that say how a case begins.
use crate::devices::devices;
use crate::fault::Fault;
use crate::machine::{Machine, SLOT};
use crate::numbers::{bit, bytes, part, word};
use buffers::buffer::Work;
use device::bank::Bank;
use device::device::Device;
use order::code::QNumber;
use registers::registers::Registers;
use std::alloc::Global;
use word::q::Q;
use word::word::Word;

// The frames of the reader.
pub(crate) fn give_tape(heap: Global, machine: &mut Machine, frames: &str) -> Result<(), Fault> {
    let frames = bytes(heap, frames)?;
    machine.bank = devices(heap, frames.as_slice())?;
    Ok(())
}

// Bytes from a place on.
pub(crate) fn give_code(heap: Global, machine: &mut Machine, rest: &str) -> Result<(), Fault> {
    let Some((place, code)) = rest.split_once(' ') else {
        return Err(Fault::Unreadable);
    };
    let place = place.parse::<u16>()?;
    let code = bytes(heap, code)?;
    for (i, byte) in code.iter().enumerate() {
        let at = place.wrapping_add(u16::try_from(i % 0x1_0000)?);
        put_byte(machine.area.as_mut_slice(), at, *byte)?;
    }
    Ok(())
}

// A word is the last six bytes of its entry.
fn put_byte(area: &mut [u64], place: u16, byte: u8) -> Result<(), Fault> {
    let Some(entry) = area.get_mut(usize::from(place / 6)) else {
        return Err(Fault::Unreadable);
    };
    let mut bytes = entry.to_be_bytes();
    bytes[2 + usize::from(place % 6)] = byte;
    *entry = u64::from_be_bytes(bytes);
    Ok(())
}

pub(crate) fn give(
    heap: Global,
    machine: &mut Machine,
    keyword: &str,
    numbers: &[i128],
) -> Result<(), Fault> {
    match (keyword, numbers) {
        ("size", [n]) => give_size(heap, machine, *n),
        ("word", [at, entries @ ..]) => give_words(machine.area.as_mut_slice(), *at, entries),
        ("nest", words) => give_nest(&mut machine.regs, words),
        ("links", links) => give_links(&mut machine.regs, links),
        ("place" | "v" | "t" | "q", _) => give_register(&mut machine.regs, keyword, numbers),
        (_, [n, after @ ..]) => give_buffer(machine, keyword, u8::try_from(*n)?, after),
        _ => Err(Fault::Unreadable),
    }
}

fn give_size(heap: Global, machine: &mut Machine, n: i128) -> Result<(), Fault> {
    let size = usize::try_from(n)?;
    if size > 32768 {
        return Err(Fault::Unreadable);
    }
    machine.area = vec![in heap; 0; size]?;
    Ok(())
}

// Entries from an address on.
fn give_words(area: &mut [u64], at: i128, entries: &[i128]) -> Result<(), Fault> {
    let at = usize::try_from(at)?;
    let room = area.len().saturating_sub(at);
    for (entry, n) in area.iter_mut().skip(at).zip(entries) {
        *entry = u64::try_from(*n)?;
    }
    if room < entries.len() {
        return Err(Fault::Unreadable);
    }
    Ok(())
}

// N1 first.
fn give_nest(regs: &mut Registers, words: &[i128]) -> Result<(), Fault> {
    for n in words.iter().rev() {
        if regs.nest_depth() >= 16 {
            return Err(Fault::Unreadable);
        }
        regs.push_word(Word::new(word(*n)?));
    }
    Ok(())
}

// The newest first.
fn give_links(regs: &mut Registers, links: &[i128]) -> Result<(), Fault> {
    for n in links.iter().rev() {
        if regs.link_depth() >= 16 {
            return Err(Fault::Unreadable);
        }
        regs.push_link(part(*n)?);
    }
    Ok(())
}

fn give_register(regs: &mut Registers, keyword: &str, numbers: &[i128]) -> Result<(), Fault> {
    match (keyword, numbers) {
        ("place", [n]) => regs.go_to(u16::try_from(*n)?),
        ("v", [n]) => regs.set_overflow(bit(*n)?),
        ("t", [n]) => regs.set_test(bit(*n)?),
        ("q", [n, c, i, m]) => {
            let parts = Q {
                c: part(*c)?,
                i: part(*i)?,
                m: part(*m)?,
            };
            regs.put_q(QNumber::try_from(u8::try_from(*n)?)?, parts);
        }
        _ => return Err(Fault::Unreadable),
    }
    Ok(())
}

fn give_buffer(machine: &mut Machine, keyword: &str, n: u8, after: &[i128]) -> Result<(), Fault> {
    match (keyword, after) {
        ("allot", []) => machine.buffers.allot(n, SLOT),
        ("allot", [slot]) => machine.buffers.allot(n, u8::try_from(*slot)?),
        ("idle", []) => machine.buffers.end(n),
        ("seeking", []) => machine.buffers.begin(n, Work::Seeking),
        ("moving", [i, m]) => {
            let work = Work::Moving(u16::try_from(*i)?, u16::try_from(*m)?);
            machine.buffers.begin(n, work);
        }
        ("head", [cell]) => machine.bank.seek(n, u16::try_from(*cell)?)?,
        ("fill", [times]) => {
            for _ in 0..u16::try_from(*times)? {
                machine.bank.write(n, 0)?;
            }
        }
        ("cells", [from, symbols @ ..]) => give_cells(machine, n, *from, symbols)?,
        _ => return Err(Fault::Unreadable),
    }
    Ok(())
}

// Writes symbols to a device that seeks, from a cell on; its head is at the first cell then.
fn give_cells(machine: &mut Machine, n: u8, from: i128, symbols: &[i128]) -> Result<(), Fault> {
    machine.bank.seek(n, u16::try_from(from)?)?;
    for symbol in symbols {
        machine.bank.write(n, u8::try_from(*symbol)?)?;
    }
    Ok(machine.bank.seek(n, 0)?)
}

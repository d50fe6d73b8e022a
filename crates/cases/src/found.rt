// What is found where a line says what to find: numbers in the order of the line.
use crate::fault::Fault;
use crate::machine::Machine;
use buffers::buffer::Work;
use device::bank::Bank;
use device::device::Device;
use registers::registers::Registers;
use std::alloc::{AllocError, Global};

pub(crate) fn found(
    heap: Global,
    machine: &mut Machine,
    keyword: &str,
    said: &[i128],
) -> Result<Vec<i128>, Fault> {
    let one = match (keyword, said) {
        ("place", [_, ..]) => i128::from(machine.regs.place()),
        ("count", [_, ..]) => i128::from(machine.count),
        ("v", [_, ..]) => i128::from(machine.regs.overflow()),
        ("t", [_, ..]) => i128::from(machine.regs.test()),
        _ => return found_list(heap, machine, keyword, said),
    };
    Ok(Vec::from_slice(heap, &[one])?)
}

fn found_list(
    heap: Global,
    machine: &mut Machine,
    keyword: &str,
    said: &[i128],
) -> Result<Vec<i128>, Fault> {
    match (keyword, said) {
        ("nest", _) => Ok(nest(heap, &machine.regs)?),
        ("links", _) => Ok(links(heap, &machine.regs)?),
        ("changed", _) => Ok(changed(heap, machine)?),
        ("punched", _) => Ok(punched(heap, machine)?),
        ("word", [at, after @ ..]) => Ok(entries(heap, machine.area.as_slice(), *at, after.len())?),
        ("q", [n, ..]) => Ok(q(heap, &machine.regs, *n)?),
        ("idle" | "seeking" | "moving", [n, ..]) => Ok(work(heap, machine, keyword, *n)?),
        ("head", [n, ..]) => Ok(head(heap, machine, *n)?),
        ("cells", [n, from, symbols @ ..]) => Ok(cells(heap, machine, *n, *from, symbols.len())?),
        _ => Err(Fault::Unreadable),
    }
}

// The words of the nest, N1 first.
fn nest(heap: Global, regs: &Registers) -> Result<Vec<i128>, AllocError> {
    (0..16usize)
        .map_while(|i| regs.nest_word(i))
        .map(|word| i128::from(word.bits()))
        .collect(heap)
}

// The links, the newest first.
fn links(heap: Global, regs: &Registers) -> Result<Vec<i128>, AllocError> {
    (0..16usize)
        .map_while(|i| regs.link(i))
        .map(i128::from)
        .collect(heap)
}

// The addresses of the words that are not as they were before the first order.
fn changed(heap: Global, machine: &Machine) -> Result<Vec<i128>, AllocError> {
    let Some(before) = &machine.before else {
        return Ok(Vec::new(heap));
    };
    machine
        .area
        .iter()
        .zip(before.as_slice())
        .enumerate()
        .filter(|(_, (now, then))| now != then)
        .map(|(at, _)| at as i128)
        .collect(heap)
}

// All that was punched.
fn punched(heap: Global, machine: &Machine) -> Result<Vec<i128>, AllocError> {
    let cells = machine.bank.below().device().cells();
    cells.iter().map(|symbol| i128::from(*symbol)).collect(heap)
}

// An address, and the entries from it on, at most so many.
fn entries(heap: Global, area: &[u64], at: i128, count: usize) -> Result<Vec<i128>, AllocError> {
    let mut all = Vec::from_slice(heap, &[at])?;
    if let Ok(start) = usize::try_from(at) {
        for entry in area.iter().skip(start).take(count) {
            all.push(i128::from(*entry))?;
        }
    }
    Ok(all)
}

// The number of a Q, and its parts, if there is one of that number.
fn q(heap: Global, regs: &Registers, n: i128) -> Result<Vec<i128>, AllocError> {
    let mut all = Vec::from_slice(heap, &[n])?;
    if let Ok(i) = usize::try_from(n)
        && let Some(q) = regs.q(i)
    {
        for part in [q.c, q.i, q.m] {
            all.push(i128::from(part))?;
        }
    }
    Ok(all)
}

// The number of a buffer, and the words that it moves, if it is at that work.
fn work(heap: Global, machine: &Machine, keyword: &str, n: i128) -> Result<Vec<i128>, AllocError> {
    let Ok(buffer) = u16::try_from(n) else {
        return Ok(Vec::new(heap));
    };
    match (keyword, machine.buffers.record(buffer).work) {
        ("idle", Work::Idle) | ("seeking", Work::Seeking) => Ok(Vec::from_slice(heap, &[n])?),
        ("moving", Work::Moving(i, m)) => {
            Ok(Vec::from_slice(heap, &[n, i128::from(i), i128::from(m)])?)
        }
        _ => Ok(Vec::new(heap)),
    }
}

// The number of a buffer, and the head of the device there, if there is one.
fn head(heap: Global, machine: &Machine, n: i128) -> Result<Vec<i128>, AllocError> {
    let mut all = Vec::from_slice(heap, &[n])?;
    if let Ok(buffer) = u8::try_from(n)
        && let Ok(cell) = machine.bank.head(buffer)
    {
        all.push(i128::from(cell))?;
    }
    Ok(all)
}

// The number of a buffer, a cell, and the symbols from it on, as far as they are read. The head comes to stand behind them.
fn cells(
    heap: Global,
    machine: &mut Machine,
    n: i128,
    from: i128,
    count: usize,
) -> Result<Vec<i128>, AllocError> {
    let mut all = Vec::from_slice(heap, &[n, from])?;
    let (Ok(buffer), Ok(cell)) = (u8::try_from(n), u16::try_from(from)) else {
        return Ok(all);
    };
    let _ = machine.bank.seek(buffer, cell);
    for _ in 0..count {
        if let Ok(symbol) = machine.bank.read(buffer) {
            all.push(i128::from(symbol))?;
        }
    }
    Ok(all)
}

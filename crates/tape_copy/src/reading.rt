// A device read out: every cell from the head on, over any bank.
ghost use Rattle.std.specs.Prelude.{◌≡◌, IfOk, MatchResult, slice_set};
ghost use Rattle.device.specs.Bank.{standing};
ghost use Rattle.device.specs.Words.{words};
ghost use Rattle.tape_copy.specs.Copying.{unread, sound_cells, damaged_cells, stop_of, run_out};

use device::bank::Bank;
use device::refusal::Refusal;
use std::alloc::{AllocError, Global};

// No device has more cells.
const MOST_CELLS: u16 = 4096;

// What reading on gave: the symbols, the numbers of the damaged cells, counted from 0 at the first that was read, and why it stopped.
#[derive(Drop)]
pub struct Reading {
    pub symbols: Vec<u8>,
    pub damaged: Vec<u16>,
    pub stop: Refusal,
}

// Reads buffer n up to a refusal other than "damaged". Want of memory is found before the first cell is read.
pub fn read_out<B: Bank>(heap: Global, bank: &mut B, n: u8) -> Result<Reading, AllocError>
    ensures answer { IfOk result (λ x. (x.symbols.items ≡ sound_cells (unread (standing (B.devices bank.old) n))) × (x.damaged.items ≡ damaged_cells 0 (unread (standing (B.devices bank.old) n))) × (words x.stop ≡ stop_of (standing (B.devices bank.old) n))) }
    ensures after { MatchResult result (λ _. B.devices bank.new ≡ slice_set (B.devices bank.old) n (run_out (standing (B.devices bank.old) n))) (λ _. B.devices bank.new ≡ B.devices bank.old) }
{
    let most = usize::from(MOST_CELLS);
    let mut symbols = Vec::with_capacity(heap, most)?;
    let mut damaged = Vec::with_capacity(heap, most)?;
    for number in 0..MOST_CELLS + 1 {
        match bank.read(n) {
            Ok(symbol) => symbols.push_reserved(symbol),
            Err(stop) if stop != Refusal::Damaged => {
                return Ok(Reading {
                    symbols,
                    damaged,
                    stop,
                });
            }
            Err(_) => damaged.push_reserved(number),
        }
    }
    unreachable!()
}

// Words from a buffer of any bank.
ghost use Rattle.std.specs.Prelude.{◌≡◌, ◌*◌, ◌^◌, ◌≤◌, length};
ghost use Rattle.std.specs.Option.{option_map};
ghost use Rattle.device.specs.Bank.{standing};
ghost use Rattle.device.specs.Words.{words};
ghost use Rattle.transfer.specs.Symbols.{gather, packed, filled, stored, stop_of, why, on_buffer};

use crate::moves::Moved;
use crate::part::{Part, Stop, is_end};
use device::bank::Bank;

// A word that was read: its symbols, highest first, filled up with zeros.
#[derive(Clone, Copy, PartialEq, Eq, Debug)]
pub(crate) struct Gathered {
    pub word: u64,
    pub part: Part,
}

// Reads at most eight symbols from buffer n into a word, up to End Message where `ends`.
fn read_word<B: Bank>(bank: &mut B, n: u8, ends: bool) -> Gathered
    ensures word { result.word ≡ packed 8 (gather ends 8 (standing (B.devices bank.old) n)).symbols }
    ensures moved { result.part.moved ≡ length (gather ends 8 (standing (B.devices bank.old) n)).symbols }
    ensures stop { stop_of result.part.stop ≡ (gather ends 8 (standing (B.devices bank.old) n)).stop }
    ensures after { B.devices bank.new ≡ on_buffer (λ d. (gather ends 8 d).device) (B.devices bank.old) n }
{
    let mut word = 0;
    for k in (0..8u8).rev() {
        match bank.read(n) {
            Ok(symbol) => {
                word += u64::from(symbol) << (6 * k);
                if is_end(ends, symbol) {
                    return Gathered {
                        word,
                        part: Part {
                            moved: 8 - k,
                            stop: Some(Stop::EndMessage),
                        },
                    };
                }
            }
            Err(refusal) => return Gathered {
                word,
                part: Part {
                    moved: 7 - k,
                    stop: Some(Stop::Refused(refusal)),
                },
            },
        }
    }
    Gathered {
        word,
        part: Part {
            moved: 8,
            stop: None,
        },
    }
}

// Reads a word into a cell of an area; with no symbol the cell stays.
fn read_cell<B: Bank>(bank: &mut B, n: u8, ends: bool, cell: &mut u64) -> Part
    ensures cell { cell.new ≡ filled cell.old (gather ends 8 (standing (B.devices bank.old) n)).symbols }
    ensures moved { result.moved ≡ length (gather ends 8 (standing (B.devices bank.old) n)).symbols }
    ensures stop { stop_of result.stop ≡ (gather ends 8 (standing (B.devices bank.old) n)).stop }
    ensures after { B.devices bank.new ≡ on_buffer (λ d. (gather ends 8 d).device) (B.devices bank.old) n }
{
    let got = read_word(bank, n, ends);
    if got.part.moved > 0 {
        *cell = got.word;
    }
    got.part
}

// Reads these words of an area.
pub(crate) fn read_words<B: Bank>(bank: &mut B, n: u8, ends: bool, area: &mut [u64]) -> Moved
    requires { length area.old ≤ 2 ^ 16 }
    ensures area { area.new ≡ stored (length area.old) 0 (gather ends (8 * length area.old) (standing (B.devices bank.old) n)).symbols area.old }
    ensures moved { result.symbols ≡ length (gather ends (8 * length area.old) (standing (B.devices bank.old) n)).symbols }
    ensures refused { option_map words result.refusal ≡ why (gather ends (8 * length area.old) (standing (B.devices bank.old) n)).stop }
    ensures after { B.devices bank.new ≡ on_buffer (λ d. (gather ends (8 * length area.old) d).device) (B.devices bank.old) n }
{
    let mut symbols = 0;
    for cell in area.iter_mut() {
        let part = read_cell(bank, n, ends, cell);
        symbols += u32::from(part.moved);
        if let Some(stop) = part.stop {
            return Moved {
                symbols,
                refusal: stop.refusal(),
            };
        }
    }
    Moved {
        symbols,
        refusal: None,
    }
}

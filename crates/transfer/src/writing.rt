// Words to a buffer of any bank.
ghost use Rattle.std.specs.Prelude.{◌≡◌, ◌^◌, ◌≤◌, length};
ghost use Rattle.std.specs.Option.{option_map};
ghost use Rattle.device.specs.Bank.{standing};
ghost use Rattle.device.specs.Words.{words};
ghost use Rattle.transfer.specs.Symbols.{send, unpacked, spread, stop_of, why, on_buffer};

use crate::moves::Moved;
use crate::part::{Part, Stop, is_end};
use device::bank::Bank;

// Writes the eight symbols of a word to buffer n, highest first, up to End Message where `ends`.
fn write_word<B: Bank>(bank: &mut B, n: u8, ends: bool, word: u64) -> Part
    ensures moved { result.moved ≡ (send ends (unpacked 8 word) (standing (B.devices bank.old) n)).moved }
    ensures stop { stop_of result.stop ≡ (send ends (unpacked 8 word) (standing (B.devices bank.old) n)).stop }
    ensures after { B.devices bank.new ≡ on_buffer (λ d. (send ends (unpacked 8 word) d).device) (B.devices bank.old) n }
{
    for k in (0..8u8).rev() {
        let symbol = ((word >> (6 * k)) % 64) as u8;
        match bank.write(n, symbol) {
            Ok(()) => {
                if is_end(ends, symbol) {
                    return Part {
                        moved: 8 - k,
                        stop: Some(Stop::EndMessage),
                    };
                }
            }
            Err(refusal) => return Part {
                moved: 7 - k,
                stop: Some(Stop::Refused(refusal)),
            },
        }
    }
    Part {
        moved: 8,
        stop: None,
    }
}

// Writes these words of an area.
pub(crate) fn write_words<B: Bank>(bank: &mut B, n: u8, ends: bool, area: &[u64]) -> Moved
    requires { length area.now ≤ 2 ^ 16 }
    ensures moved { result.symbols ≡ (send ends (spread (length area.now) 0 area.now) (standing (B.devices bank.old) n)).moved }
    ensures refused { option_map words result.refusal ≡ why (send ends (spread (length area.now) 0 area.now) (standing (B.devices bank.old) n)).stop }
    ensures after { B.devices bank.new ≡ on_buffer (λ d. (send ends (spread (length area.now) 0 area.now) d).device) (B.devices bank.old) n }
{
    let mut symbols = 0;
    for word in area {
        let part = write_word(bank, n, ends, *word);
        symbols += u32::from(part.moved);
        if let Some(stop) = part.stop {
            return Moved {
                symbols,
                refusal: stop.refusal(),
            };
        }
    }
    Moved {
        symbols,
        refusal: None,
    }
}

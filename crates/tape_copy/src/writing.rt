// Symbols written to a buffer of any bank.
ghost use Rattle.std.specs.Prelude.{◌≡◌, slice_set};
ghost use Rattle.device.specs.Bank.{standing};
ghost use Rattle.device.specs.Words.{words};
ghost use Rattle.std.specs.Option.{option_map};
ghost use Rattle.tape_copy.specs.Copying.{written};

use device::bank::Bank;
use device::refusal::Refusal;

// How many symbols were taken, and the refusal that stopped it.
#[derive(Clone, Copy)]
pub struct WriteResult {
    pub count: usize,
    pub refusal: Option<Refusal>,
}

// Writes symbols to buffer n, up to the first refusal.
pub fn write_in<B: Bank>(bank: &mut B, n: u8, symbols: &[u8]) -> WriteResult
    ensures count { result.count ≡ (written symbols.now (standing (B.devices bank.old) n)).count }
    ensures refusal { option_map words result.refusal ≡ (written symbols.now (standing (B.devices bank.old) n)).refusal }
    ensures after { B.devices bank.new ≡ slice_set (B.devices bank.old) n (written symbols.now (standing (B.devices bank.old) n)).device }
{
    for (i, symbol) in symbols.iter().enumerate() {
        if let Err(refusal) = bank.write(n, *symbol) {
            return WriteResult {
                count: i,
                refusal: Some(refusal),
            };
        }
    }
    WriteResult {
        count: symbols.len(),
        refusal: None,
    }
}

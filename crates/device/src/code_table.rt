// A code table: it holds the symbols 0 to 63 once each, checked once.
ghost use Rattle.std.specs.Prelude.{◌≡◌, ℕ, ◌<◌, ◌==◌, length, ◌≢◌, position, slice_index};
ghost use Rattle.device.specs.Layers.{occurs};
ghost use Rattle.device.specs.Meaning.{Below};
ghost use Rattle.device.specs.Words.{numbered, table_answer};
ghost use Rattle.std.specs.Option as options;

use super::refusal::InputRefusal;

#[derive(Drop)]
pub struct CodeTable {
    // the symbol s below is shown as shown[s], and the symbol t is written as back[t]
    shown: [u8; 64],
    back: [u8; 64],
    ghost long: { length shown ≡ 64 },
    ghost back_long: { length back ≡ 64 },
    ghost symbols: { Below 64 shown },
    ghost back_symbols: { Below 64 back },
    ghost inverse: { (s : ℕ) → s < 64 → slice_index shown (slice_index back s) ≡ s },
}

// The first place of a symbol in a table.
fn first_of(table: &[u8; 64], symbol: u8) -> Option<usize>
    ensures { result ≡ position (λ x. x == symbol) table.now }
{
    table.iter().position(|entry| *entry == symbol)
}

// Where a symbol stands in a table, if it stands there once.
#[tactic(auto, using(crate::proofs::Tables::position_none))]
fn place_of(table: &[u8; 64], symbol: u8) -> Option<u8>
    ensures { options.MatchOption result (occurs symbol table.now ≢ 1) (λ i. (i < 64) × (slice_index table.now i ≡ symbol) × (occurs symbol table.now ≡ 1)) }
{
    let place = first_of(table, symbol)?;
    if table[place + 1..].contains(&symbol) {
        None
    } else {
        u8::try_from(place).ok()
    }
}

// The table that shows symbol s as shown[s], refused by number 7 where it does not hold 0 to 63 once each.
impl TryFrom<[u8; 64]> for CodeTable {
    type Error = InputRefusal;

    ghost try_from_gives = { λ shown result. numbered (λ t. t.shown) result ≡ table_answer shown };

    fn try_from(shown: [u8; 64]) -> Result<CodeTable, InputRefusal> {
        let mut back = [0; 64];
        for (symbol, place) in back.iter_mut().enumerate() {
            let Some(found) = place_of(&shown, symbol as u8) else {
                return Err(InputRefusal::TableUnfit);
            };
            *place = found;
        }
        Ok(CodeTable { shown, back })
    }
}

impl CodeTable {
    pub(crate) fn show(&self, symbol: u8) -> u8
        requires { symbol < 64 }
        ensures { result ≡ slice_index self.now.shown symbol }
    {
        self.shown[usize::from(symbol)]
    }

    // The symbol that is shown as this one.
    pub(crate) fn hide(&self, symbol: u8) -> u8
        requires { symbol < 64 }
        ensures { (result < 64) × (slice_index self.now.shown result ≡ symbol) }
    {
        self.back[usize::from(symbol)]
    }
}

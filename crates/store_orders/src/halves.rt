// A half of a word fetched, and a half stored.
ghost use Rattle.std.specs.Prelude.{◌≡◌, ◌<◌, length};
ghost use Rattle.store_orders.specs.State.{state, fetch_half, put_half};

use registers::registers::Registers;
use word::word::Word;

pub(crate) fn fetch_half(upper: bool, at: u16, regs: &mut Registers, area: &[u64])
    requires inside { at < length area.now }
    requires room { length regs.old.nest < 16 }
    ensures { state regs.new area.now ≡ fetch_half upper at (state regs.old area.now) }
{
    let word = Word::new(area[usize::from(at)]);
    regs.push_word(if upper { word.upper() } else { word.lower() });
}

pub(crate) fn put_half(upper: bool, at: u16, regs: &mut Registers, area: &mut [u64])
    requires inside { at < length area.old }
    requires there { 0 < length regs.old.nest }
    ensures { state regs.new area.new ≡ put_half upper at (state regs.old area.old) }
{
    let old = Word::new(area[usize::from(at)]);
    let n1 = regs.pop_word();
    let new = if upper {
        old.with_upper(n1)
    } else {
        old.with_lower(n1)
    };
    area[usize::from(at)] = new.bits();
}

// A word fetched, a word stored, and the step of a Q that may follow.
ghost use Rattle.std.specs.Prelude.{◌≡◌, ◌<◌, length};
ghost use Rattle.store_orders.specs.State.{state, fetch, put, stepped};

use order::code::QNumber;
use registers::registers::Registers;
use word::word::Word;

pub(crate) fn fetch_word(at: u16, regs: &mut Registers, area: &[u64])
    requires inside { at < length area.now }
    requires room { length regs.old.nest < 16 }
    ensures { state regs.new area.now ≡ fetch at (state regs.old area.now) }
{
    regs.push_word(Word::new(area[usize::from(at)]));
}

pub(crate) fn put_word(at: u16, regs: &mut Registers, area: &mut [u64])
    requires inside { at < length area.old }
    requires there { 0 < length regs.old.nest }
    ensures { state regs.new area.new ≡ put at (state regs.old area.old) }
{
    area[usize::from(at)] = regs.pop_word().bits();
}

// M+I and DC.
pub(crate) fn step_q(q: QNumber, regs: &mut Registers)
    ensures { regs.new ≡ stepped q regs.old }
{
    let new = regs.q_of(q).advance().count_down();
    regs.put_q(q, new);
}

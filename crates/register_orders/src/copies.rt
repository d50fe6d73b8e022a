// Copies of parts of one Q to another.
ghost use Rattle.std.specs.Prelude.{◌≡◌};
ghost use Rattle.register_orders.specs.Copies.{copy, copied};

use order::code::{Parts, QNumber};
use registers::registers::Registers;
use word::q::Q;

pub(crate) fn copy_parts(which: Parts, k: QNumber, q: QNumber, regs: &mut Registers)
    ensures { regs.new ≡ copied which k q regs.old }
{
    let new = merged(which, regs.q_of(k), regs.q_of(q));
    regs.put_q(q, new);
}

// `to` with the named parts of `from`.
fn merged(which: Parts, from: Q, to: Q) -> Q
    ensures { result ≡ copy which from to }
{
    match which {
        Parts::M => Q { m: from.m, ..to },
        Parts::I => Q { i: from.i, ..to },
        Parts::Im => Q { c: to.c, ..from },
        Parts::C => Q { c: from.c, ..to },
        Parts::Cm => Q { i: to.i, ..from },
        Parts::Ci => Q { m: to.m, ..from },
        Parts::Q => from,
    }
}

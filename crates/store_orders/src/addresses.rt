// The address of the word that an order touches.
ghost use Rattle.std.specs.Prelude.{◌≡◌};
ghost use Rattle.store_orders.specs.Addresses.{store_address, indexed_address};

use order::code::{IndexedOrder, QNumber};
use registers::registers::Registers;
use word::q::address;

// Of an order that names an address e and one Q.
pub fn store_address(q: QNumber, e: u16, regs: &Registers) -> u16
    ensures { result ≡ store_address q e regs.now }
{
    address(e, regs.q_of(q).m)
}

// Of an order that names two Qs. There are two halves to a word.
pub fn indexed_address(order: IndexedOrder, k: QNumber, q: QNumber, regs: &Registers) -> u16
    ensures { result ≡ indexed_address order k q regs.now }
{
    let base = regs.q_of(k).m;
    let m = regs.q_of(q).m;
    match order {
        IndexedOrder::FetchHalf | IndexedOrder::PutHalf => address(base, m / 2),
        _ => address(base, m),
    }
}

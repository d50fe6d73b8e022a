// How an order that fetches or stores is carried out. The place is already that of the next order.
ghost use Rattle.std.specs.Prelude.{◌≡◌, ◌<◌, length};
ghost use Rattle.order.specs.Cells.{store_cells, indexed_cells};
ghost use Rattle.registers.specs.Enough.{Enough};
ghost use Rattle.store_orders.specs.State.{state};
ghost use Rattle.store_orders.specs.Addresses.{store_address, indexed_address};
ghost use Rattle.store_orders.specs.Effects.{on_store, on_indexed};

use crate::addresses::{indexed_address, store_address};
use crate::halves::{fetch_half, put_half};
use crate::words::{fetch_word, put_word, step_q};
use order::code::{IndexedOrder, QNumber, StoreOrder};
use registers::registers::Registers;

// At e + M of q.
pub fn on_store(order: StoreOrder, q: QNumber, e: u16, regs: &mut Registers, area: &mut [u64])
    requires cells { Enough (store_cells order) regs.old }
    requires inside { store_address q e regs.old < length area.old }
    ensures { state regs.new area.new ≡ on_store order q e (state regs.old area.old) }
{
    let at = store_address(q, e, regs);
    match order {
        StoreOrder::Fetch => fetch_word(at, regs, area),
        StoreOrder::FetchStep => {
            fetch_word(at, regs, area);
            step_q(q, regs);
        }
        StoreOrder::Put => put_word(at, regs, area),
        StoreOrder::PutStep => {
            put_word(at, regs, area);
            step_q(q, regs);
        }
    }
}

// At M of k and M of q.
pub fn on_indexed(
    order: IndexedOrder,
    k: QNumber,
    q: QNumber,
    regs: &mut Registers,
    area: &mut [u64],
)
    requires cells { Enough (indexed_cells order) regs.old }
    requires inside { indexed_address order k q regs.old < length area.old }
    ensures { state regs.new area.new ≡ on_indexed order k q (state regs.old area.old) }
{
    let at = indexed_address(order, k, q, regs);
    let upper = regs.q_of(q).m % 2 == 0;
    match order {
        IndexedOrder::Fetch => fetch_word(at, regs, area),
        IndexedOrder::Put => put_word(at, regs, area),
        IndexedOrder::FetchStep => {
            fetch_word(at, regs, area);
            step_q(q, regs);
        }
        IndexedOrder::PutStep => {
            put_word(at, regs, area);
            step_q(q, regs);
        }
        IndexedOrder::FetchHalf => fetch_half(upper, at, regs, area),
        IndexedOrder::PutHalf => put_half(upper, at, regs, area),
    }
}

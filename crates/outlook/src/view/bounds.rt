// The bounds of an order that could be read, in the order in which they are judged.
ghost use Rattle.std.specs.Prelude.{◌≡◌, ℕ, Bool, not, ◌&&◌, ◌||◌, [], ◌∷◌, length, Option, nat_le, nat_lt};
ghost use Rattle.device.specs.Meaning.{Meaning};
ghost use Rattle.order.specs.Cells.{cells};
ghost use Rattle.order.specs.Table.{row_cells};
ghost use Rattle.buffers.specs.Buffers.{records, locked_between, is_busy};
ghost use Rattle.outlook.specs.Bounds.{short, over, moves_words, asks_busy, order_bounds, transfer_bounds, first, passed};
ghost use Rattle.outlook.specs.View.{own_seen};
ghost use Rattle.outlook.specs.declared.bound.Bound.TheVariants.{CellsShort, CellsOver, Address, WordLock};

use super::View;
use crate::bound::Bound;
use buffers::buffer::Work;
use order::code::{Order, QNumber, TransferOrder};
use order::table::Row;
use register_orders::shift_fits;
use store_orders::{indexed_address, store_address};
use word::q::Q;

// Whether a transfer order moves words of the area.
fn moves(order: TransferOrder) -> bool
    ensures { result ≡ moves_words order }
{
    !matches!(order, TransferOrder::Seek | TransferOrder::Busy)
}

// Whether a transfer order waits for its buffer; BUSY does not.
fn held_up(order: TransferOrder, work: Work) -> bool
    ensures { result ≡ (not (asks_busy order) && is_busy work) }
{
    !matches!(order, TransferOrder::Busy) && work.is_busy()
}

impl View<'_> {
    // Of nest and links.
    fn judge_cells(&self, row: Row) -> Result<(), Bound>
        ensures { result ≡ passed (first ((CellsShort, short (row_cells row) self.now.regs.now) ∷ (CellsOver, over (row_cells row) self.now.regs.now) ∷ [])) }
    {
        let nest = self.regs.nest_depth();
        let links = self.regs.link_depth();
        let nest_needed = usize::from(row.nest_needed);
        let links_needed = usize::from(row.links_needed);
        if nest < nest_needed || links < links_needed {
            return Err(Bound::CellsShort);
        }
        if 16 + nest_needed < nest + usize::from(row.nest_left)
            || 16 + links_needed < links + usize::from(row.links_left)
        {
            return Err(Bound::CellsOver);
        }
        Ok(())
    }

    // Of the word at an address.
    fn judge_word(&self, address: u16) -> Result<(), Bound>
        ensures { result ≡ passed (first ((Address, nat_le (length self.now.area.now) address) ∷ (WordLock, locked_between self.now.slot (records self.now.buffers.now.table) address address) ∷ [])) }
    {
        if self.area.len() <= usize::from(address) {
            return Err(Bound::Address);
        }
        if self.buffers.locked(self.slot, address, address) {
            return Err(Bound::WordLock);
        }
        Ok(())
    }

    // Whether a transfer order moves words that are not all in the area.
    fn limits_wrong(&self, order: TransferOrder, q: Q) -> bool
        ensures { result ≡ (moves_words order && (nat_lt q.m q.i || nat_le (length self.now.area.now) q.m)) }
    {
        moves(order) && (q.m < q.i || self.area.len() <= usize::from(q.m))
    }

    // Whether a transfer order moves a locked word.
    fn meets_lock(&self, order: TransferOrder, q: Q) -> bool
        ensures { result ≡ (moves_words order && locked_between self.now.slot (records self.now.buffers.now.table) q.i q.m) }
    {
        moves(order) && self.buffers.locked(self.slot, q.i, q.m)
    }

    // Of a transfer order.
    fn judge_transfer(&self, order: TransferOrder, q: QNumber) -> Result<(), Bound>
        ensures { (ready : Bool) (bank : ℕ → Option Meaning) → result ≡ passed (first (transfer_bounds order q (own_seen self.now ready bank))) }
    {
        let q = self.regs.q_of(q);
        let Some(work) = self.buffers.work_of(self.slot, q.c) else {
            return Err(Bound::NoBuffer);
        };
        if self.limits_wrong(order, q) {
            return Err(Bound::Limits);
        }
        if held_up(order, work) {
            return Err(Bound::Busy);
        }
        if self.meets_lock(order, q) {
            return Err(Bound::WordLock);
        }
        Ok(())
    }

    // The first bound that an order breaks, its row's cells being its own.
    #[tactic(auto, using(crate::proofs::Lines::locked_lines))]
    pub(super) fn judge(&self, order: &Order, row: Row) -> Result<(), Bound>
        requires { row_cells row ≡ cells order.now }
        ensures { (ready : Bool) (bank : ℕ → Option Meaning) → result ≡ passed (first (order_bounds order.now (own_seen self.now ready bank))) }
    {
        self.judge_cells(row)?;
        match *order {
            Order::Register(o) if shift_fits(o, self.regs) => Ok(()),
            Order::Register(_) => Err(Bound::ShiftLength),
            Order::Store(_, q, e) => self.judge_word(store_address(q, e, self.regs)),
            Order::Indexed(o, k, q) => self.judge_word(indexed_address(o, k, q, self.regs)),
            Order::Transfer(o, q) => self.judge_transfer(o, q),
            Order::Out => Ok(()),
        }
    }
}

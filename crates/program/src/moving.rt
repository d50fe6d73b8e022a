// The transfer orders, between what a program owns and the devices on its buffers.
ghost use Rattle.std.specs.Prelude.{◌≡◌, ℕ, ◌≤◌, Bool, true};
ghost use Rattle.buffers.specs.Buffers.{records, holds};
ghost use Rattle.outlook.specs.Own.{own_of};
ghost use Rattle.program.specs.Effects.{kind_of, work_by, moved_by};
ghost use Rattle.program.specs.Kept.{Kept};
ghost use Rattle.program.specs.Told.{told};
ghost use Rattle.device.specs.Bank.{standing};

use crate::outcome::Outcome;
use buffers::buffer::Work;
use buffers::table::Buffers;
use device::bank::Bank;
use order::code::TransferOrder;
use registers::registers::Registers;
use transfer::moves::{Move, Transfer, make_move};
use word::q::Q;

// The move that a transfer order makes; BUSY makes none.
pub(crate) fn kind_of(order: TransferOrder) -> Option<Transfer>
    ensures { result ≡ kind_of order }
{
    match order {
        TransferOrder::Read => Some(Transfer::Read { ends: false }),
        TransferOrder::ReadToEnd => Some(Transfer::Read { ends: true }),
        TransferOrder::Write => Some(Transfer::Write { ends: false }),
        TransferOrder::WriteToEnd => Some(Transfer::Write { ends: true }),
        TransferOrder::Seek => Some(Transfer::Seek),
        TransferOrder::Busy => None,
    }
}

// What the buffer is at once a move is done.
fn work_by(kind: Transfer, q: Q) -> Work
    ensures { result ≡ work_by kind q }
{
    match kind {
        Transfer::Read { ends: _ } | Transfer::Write { ends: _ } => Work::Moving(q.i, q.m),
        Transfer::Seek => Work::Seeking,
    }
}

// Makes a move on the buffer that C names, for the program whose buffer it is.
pub(crate) fn do_move<B: Bank>(
    kind: Transfer,
    q: Q,
    place: u16,
    regs: &mut Registers,
    area: &mut [u64],
    buffers: &mut Buffers,
    bank: &mut B,
) -> Outcome
    requires { q.c ≤ 15 }
    ensures own { (slot : ℕ) (ready : Bool) → holds slot (records buffers.old.table q.c) ≡ true → moved_by kind q place (own_of slot regs.old area.old ready (records buffers.old.table) (standing (B.devices bank.old))) ≡ (own_of slot regs.new area.new ready (records buffers.new.table) (standing (B.devices bank.new)), told result) }
    ensures kept { (slot : ℕ) → holds slot (records buffers.old.table q.c) ≡ true → Kept slot (records buffers.old.table) (records buffers.new.table) (standing (B.devices bank.old)) (standing (B.devices bank.new)) }
{
    let n = q.c as u8;
    let x = Move {
        transfer: kind,
        i: q.i,
        m: q.m,
    };
    let moved = make_move(x, bank, n, area);
    match moved.refusal {
        None => {
            buffers.begin(n, work_by(kind, q));
            regs.go_to(place);
            Outcome::Done(moved.symbols)
        }
        Some(refusal) => Outcome::Refused(n, refusal, moved.symbols),
    }
}

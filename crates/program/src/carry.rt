// Carrying out an order that breaks no bound.
ghost use Rattle.std.specs.Prelude.{◌≡◌, ℕ, Bool, Ok, Option};
ghost use Rattle.device.specs.Meaning.{Meaning};
ghost use Rattle.buffers.specs.Buffers.{records};
ghost use Rattle.outlook.specs.Outlook.{foreseen};
ghost use Rattle.outlook.specs.Own.{own_of};
ghost use Rattle.program.specs.Effects.{carried};
ghost use Rattle.program.specs.Kept.{Kept};
ghost use Rattle.program.specs.Told.{told};
ghost use Rattle.device.specs.Bank.{standing};

use crate::moving::{do_move, kind_of};
use crate::outcome::Outcome;
use buffers::table::Buffers;
use device::bank::Bank;
use order::code::Order;
use outlook::next::Next;
use register_orders::{carry_out, out};
use registers::registers::Registers;
use store_orders::{on_indexed, on_store};

// The order that the outlook gave, carried out for the program in a slot. All but a move are done from the place of the next one.
pub fn carry_next<B: Bank>(
    next: Next,
    slot: u8,
    regs: &mut Registers,
    area: &mut [u64],
    buffers: &mut Buffers,
    bank: &mut B,
) -> Outcome
    requires { (ready : Bool) (bank : ℕ → Option Meaning) → Ok next ≡ foreseen (own_of slot regs.old area.old ready (records buffers.old.table) bank) }
    ensures own { (ready : Bool) → carried next (own_of slot regs.old area.old ready (records buffers.old.table) (standing (B.devices bank.old))) ≡ (own_of slot regs.new area.new ready (records buffers.new.table) (standing (B.devices bank.new)), told result) }
    ensures kept { Kept slot (records buffers.old.table) (records buffers.new.table) (standing (B.devices bank.old)) (standing (B.devices bank.new)) }
{
    let Next { order, place } = next;
    match order {
        Order::Register(o) => {
            regs.go_to(place);
            carry_out(o, regs);
            Outcome::Done(0)
        }
        Order::Store(o, q, e) => {
            regs.go_to(place);
            on_store(o, q, e, regs, area);
            Outcome::Done(0)
        }
        Order::Indexed(o, k, q) => {
            regs.go_to(place);
            on_indexed(o, k, q, regs, area);
            Outcome::Done(0)
        }
        Order::Transfer(o, q) => {
            let parts = regs.q_of(q);
            match kind_of(o) {
                Some(kind) => do_move(kind, parts, place, regs, area, buffers, bank),
                None => {
                    regs.go_to(place);
                    regs.set_test(buffers.record(parts.c).work.is_busy());
                    Outcome::Done(0)
                }
            }
        }
        Order::Out => {
            regs.go_to(place);
            Outcome::Out(out(regs))
        }
    }
}

// Entering a slot, stepping its program, and handing back; and whole turns.
ghost use Rattle.std.specs.Prelude.{◌≡◌, ℕ, List, length};
ghost use Rattle.host.specs.Calls.{perform, refusal};
ghost use Rattle.host.specs.Calls.Call.{turn};
ghost use Rattle.host.specs.Causes.{report_of};
ghost use Rattle.host.specs.Numbers.{reported, refused_by};
ghost use Rattle.host.specs.Steps.{entered, stepped, steps, handed_back};
ghost use Rattle.program.specs.Told.{told};
ghost use Rattle.machine.specs.Settled.{Settled};
ghost use Rattle.machine.specs.Shown.{shown, token_of, step_left};

use super::Machine;
use crate::control::Control;
use crate::turn::Turn;
use device::bank::Bank;
use host::cause::{Cause, Ending, Report, done_by, stops};
use host::refusal::Refusal;
use program::outcome::Outcome;
use slots::slots::State;

impl<B: Bank> Machine<B> {
    // A turn for a slot of any number. It uses the control up.
    pub fn enter(&self, control: Control, slot: u8) -> Turn
        ensures { token_of result ≡ entered slot }
    {
        let Control { seal: () } = control;
        Turn {
            slot,
            ending: None,
            orders: 0,
        }
    }

    // What an order at a place came to is noted in its turn, and stops its program where it has to.
    fn settle(&mut self, turn: &mut Turn, place: u16, outcome: Outcome)
        ensures { (store : List ℕ) → Settled place (told outcome) (token_of turn.old) (token_of turn.new) (shown B.devices store self.old) (shown B.devices store self.new) }
    {
        if stops(outcome) {
            self.slots.stop(turn.slot);
        }
        let slot = turn.slot;
        turn.ending = Cause::of(outcome).map(|cause| Ending { slot, place, cause });
        turn.orders = turn.orders.saturating_add(done_by(outcome));
    }

    // One step of a turn: the cause that it has again, a refusal, or the order at its program's place.
    pub fn step(&mut self, turn: &mut Turn, store: &mut [u64]) -> Result<Option<Ending>, Refusal>
        ensures { step_left B.devices store.new self.new turn.new result ≡ stepped (token_of turn.old) (shown B.devices store.old self.old) }
    {
        let slot = turn.slot;
        let place = self.slots.place(slot);
        match (
            self.slots.state(slot),
            turn.ending,
            self.slots.ahead(slot, store, &self.buffers),
        ) {
            (_, Some(ending), _) => Ok(Some(ending)),
            (None, None, _) => Err(Refusal::SlotOver3),
            (Some(State::Empty), None, _) => Err(Refusal::SlotEmpty),
            (Some(State::Stopped), None, _) => Err(Refusal::SlotStopped),
            (Some(State::Ready), None, None) => Err(Refusal::StoreShort),
            (Some(State::Ready), None, Some(Err(bound))) => {
                self.settle(turn, place, Outcome::Broke(bound));
                Ok(turn.ending)
            }
            (Some(State::Ready), None, Some(Ok(next))) => {
                let outcome = self
                    .slots
                    .carry(slot, next, store, &mut self.buffers, &mut self.bank);
                self.settle(turn, place, outcome);
                Ok(turn.ending)
            }
        }
    }

    // Steps a turn n times, or up to its first cause.
    fn run(&mut self, turn: &mut Turn, store: &mut [u64], n: u32)
        ensures { ◌≡◌ (shown B.devices store.new self.new, token_of turn.new) (steps n (token_of turn.old) (shown B.devices store.old self.old)) }
    {
        for _ in 0..n {
            if turn.ending.is_some() {
                return;
            }
            let _ = self.step(turn, store);
        }
    }

    // Ends a turn: how it ended, how many orders were done, and the control.
    pub fn hand_back(&self, turn: Turn) -> (Report, Control)
        ensures { (store : List ℕ) → report_of result.0 ≡ handed_back (token_of turn) (shown B.devices store self.now) }
    {
        let Turn {
            slot,
            ending,
            orders,
        } = turn;
        let ending = ending.unwrap_or_else(|| Ending {
            slot,
            place: self.slots.place(slot),
            cause: Cause::Count,
        });
        (Report { ending, orders }, Control { seal: () })
    }

    // The checks of a step over a store of so many words.
    fn check_step(&self, words: usize, slot: u8) -> Result<(), Refusal>
        ensures { (n : ℕ) (store : List ℕ) → length store ≡ words → refused_by result ≡ refusal (turn slot n) (shown B.devices store self.now) }
    {
        match self.slots.state(slot) {
            None => Err(Refusal::SlotOver3),
            Some(State::Empty) => Err(Refusal::SlotEmpty),
            Some(State::Stopped) => Err(Refusal::SlotStopped),
            Some(State::Ready) if self.slots.is_cut_off(slot, words) => Err(Refusal::StoreShort),
            Some(State::Ready) => Ok(()),
        }
    }

    // A turn of n orders, or of those up to the first cause.
    pub fn turn(
        &mut self,
        control: Control,
        store: &mut [u64],
        slot: u8,
        n: u32,
    ) -> (Result<Report, Refusal>, Control)
        ensures { ◌≡◌ (shown B.devices store.new self.new, reported result.0) (perform (turn slot n) (shown B.devices store.old self.old)) }
    {
        if let Err(refusal) = self.check_step(store.len(), slot) {
            return (Err(refusal), control);
        }
        let mut turn = self.enter(control, slot);
        self.run(&mut turn, store, n);
        let (report, control) = self.hand_back(turn);
        (Ok(report), control)
    }
}

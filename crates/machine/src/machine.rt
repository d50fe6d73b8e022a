// The machine over a bank, and its making.
ghost use Rattle.std.specs.Prelude.{◌≡◌, ℕ, List};
ghost use Rattle.device.specs.Bank.{standing};
ghost use Rattle.host.specs.Calls.{made};
ghost use Rattle.machine.specs.Shown.{shown};

use crate::control::Control;
use buffers::table::Buffers;
use device::bank::Bank;
use slots::slots::Slots;

mod allotting;
mod loading;
mod questions;
mod turns;

#[derive(Drop)]
pub struct Machine<B> {
    slots: Slots,
    buffers: Buffers,
    bank: B,
}

impl<B: Bank> Machine<B> {
    // Empty slots over a bank, and Director's control.
    pub fn new(bank: B) -> (Machine<B>, Control)
        ensures { (store : List ℕ) → shown B.devices store result.0 ≡ made store (standing (B.devices bank)) }
    {
        (
            Machine {
                slots: Slots::new(),
                buffers: Buffers::new(),
                bank,
            },
            Control { seal: () },
        )
    }

    // Looks at the bank.
    pub fn bank(&self) -> &B
        ensures { result.now ≡ self.now.bank }
    {
        &self.bank
    }

    // Ends the machine, and gives its bank back.
    pub fn into_bank(self) -> B
        ensures { result ≡ self.bank }
    {
        self.bank
    }
}

// All that the program of a case owns, and how far it came.
use crate::devices::{Devices, devices};
use crate::fault::Fault;
use buffers::table::Buffers;
use program::attempt::attempt;
use program::outcome::Outcome;
use registers::registers::Registers;
use std::alloc::{AllocError, Global};

// The slot of the program.
pub const SLOT: u8 = 1;

#[derive(Drop)]
pub struct Machine {
    pub regs: Registers,
    pub area: Vec<u64>,
    pub buffers: Buffers,
    pub bank: Devices,
    // the area before the first order, once one was tried
    pub before: Option<Vec<u64>>,
    // what the last order came to
    pub outcome: Outcome,
    // how many orders were done
    pub count: u32,
}

impl Machine {
    // An area of 32 zero words, and a reader without tape.
    pub(crate) fn new(heap: Global) -> Result<Machine, Fault> {
        Ok(Machine {
            regs: Registers::new(),
            area: vec![in heap; 0; 32]?,
            buffers: Buffers::new(),
            bank: devices(heap, &[])?,
            before: None,
            outcome: Outcome::Done(0),
            count: 0,
        })
    }

    // Tries so many orders, or those up to the first that does not go on to the next.
    pub(crate) fn run(&mut self, heap: Global, steps: u32) -> Result<(), AllocError> {
        if self.before.is_none() {
            self.before = Some(Vec::from_slice(heap, self.area.as_slice())?);
        }
        for _ in 0..steps {
            self.step();
            if !matches!(self.outcome, Outcome::Done(_)) {
                break;
            }
        }
        Ok(())
    }

    fn step(&mut self) {
        self.outcome = attempt(
            SLOT,
            &mut self.regs,
            self.area.as_mut_slice(),
            &mut self.buffers,
            &mut self.bank,
        );
        if matches!(self.outcome, Outcome::Done(_) | Outcome::Out(_)) {
            self.count = self.count.saturating_add(1);
        }
    }
}

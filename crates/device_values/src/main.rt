// Runs devices, layers and banks through their calls and refusals, and prints what each answers.
#![tactic(auto)]

mod layers;
mod refusals;

use layers::{run_changer, run_ring_off};
use refusals::{run_bank, run_input, run_punch};

fn main(rt: HostRuntime) -> anyhow::Result<()> {
    run_ring_off(&rt)?;
    run_changer(&rt)?;
    run_punch(&rt)?;
    run_bank(&rt)?;
    run_input(&rt)
}

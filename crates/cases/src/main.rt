// Runs the worked cases of cases.txt, one program each, and compares what comes with what the file says.
#![tactic(auto)]

mod cases;
mod devices;
mod fault;
mod found;
mod given;
mod machine;
mod numbers;
mod text;

use crate::cases::Cases;
use std::fs;

fn run(rt: &HostRuntime) -> anyhow::Result<()> {
    let text = fs::read_to_string(rt, "cases.txt")?;
    let mut cases = Cases::new(rt.alloc())?;
    for (before, line) in text.as_str().lines().enumerate() {
        cases.take(rt, before.wrapping_add(1), line)?;
    }
    cases.print(rt)
}

fn main(rt: HostRuntime) -> anyhow::Result<()> {
    run(&rt)
}

// Decodes the byte strings of a file of values, and compares what they say with what the file says.
#![tactic(auto)]

mod names;
mod text;
mod value;

use std::fs;
use value::{Tally, compare};

fn main(rt: HostRuntime) -> anyhow::Result<()> {
    run(&rt)
}

fn run(rt: &HostRuntime) -> anyhow::Result<()> {
    let values = fs::read_to_string(rt, "order-values.txt")?;
    let mut tally = Tally::default();
    for line in values.lines().filter(|line| !line.starts_with('#')) {
        compare(rt, line, &mut tally)?;
    }
    println!(rt; "{tally}")?;
    Ok(())
}

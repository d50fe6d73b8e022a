// Compares the functions of `word` with values that were computed elsewhere: values.txt, a line for each.
#![tactic(auto)]

mod answer;
mod calls;
mod line;
mod scores;

use crate::line::compared;
use crate::scores::Scores;
use anyhow::anyhow;
use std::{fs, io};

// One line, compared; one that differs or that nobody can read is named.
fn compare(rt: &HostRuntime, scores: &mut Scores, number: usize, line: &str) -> io::Result<()> {
    let Some((name, agrees)) = compared(line) else {
        scores.note(rt.alloc(), "unreadable", false)?;
        return println!(rt; "line {number} is unreadable: {line}");
    };
    scores.note(rt.alloc(), name, agrees)?;
    if !agrees {
        println!(rt; "line {number} differs: {line}")?;
    }
    Ok(())
}

fn run(rt: &HostRuntime) -> anyhow::Result<()> {
    let text = fs::read_to_string(rt, "values.txt")?;
    let mut scores = Scores::new(rt.alloc());
    for (before, line) in text.lines().enumerate() {
        if !line.starts_with('#') {
            compare(rt, &mut scores, before.wrapping_add(1), line)?;
        }
    }
    println!(rt; "{scores}")?;
    if scores.differing() > 0 {
        return Err(anyhow!("a value differs"));
    }
    Ok(())
}

fn main(rt: HostRuntime) -> anyhow::Result<()> {
    run(&rt)
}

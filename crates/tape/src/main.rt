// Checks a paper tape and copies it: tape FILE COPY.
#![tactic(auto)]

mod failure;
mod job;
mod report;

use failure::Failure;
use job::copy_tape;
use std::env;
use std::process::ExitCode;

fn main(rt: HostRuntime) -> ExitCode {
    match run(&rt) {
        Ok(()) => ExitCode::SUCCESS,
        Err(e) => {
            let _ = eprintln!(rt; "tape: {e}");
            ExitCode::FAILURE
        }
    }
}

fn run(rt: &HostRuntime) -> Result<(), Failure> {
    let mut args = env::args(rt)?;
    let _ = args.next();
    match (args.next(), args.next(), args.next()) {
        (Some(from), Some(to), None) => copy_tape(rt, from.as_str(), to.as_str()),
        _ => Err(Failure::Usage),
    }
}

// The cases, line by line, and how many agree.
use crate::fault::Fault;
use crate::found::found;
use crate::given::{give, give_code, give_tape};
use crate::machine::Machine;
use crate::numbers::{PARTS, WORDS, numbers, without_sign};
use crate::text::Text;
use anyhow::anyhow;
use std::alloc::Global;

#[derive(Drop)]
struct Case {
    name: String,
    machine: Machine,
    // whether a line of it differed, or could not be read
    differs: bool,
}

#[derive(Drop)]
pub struct Cases {
    // the case that is read
    case: Case,
    count: u32,
    differing: u32,
}

impl Case {
    fn new(heap: Global, name: &str) -> Result<Case, Fault> {
        Ok(Case {
            name: String::from_str(heap, name)?,
            machine: Machine::new(heap)?,
            differs: false,
        })
    }
}

impl Cases {
    pub(crate) fn new(heap: Global) -> Result<Cases, Fault> {
        Ok(Cases {
            case: Case::new(heap, "before the first case")?,
            count: 0,
            differing: 0,
        })
    }

    // One line; what follows # is a comment.
    pub(crate) fn take(
        &mut self,
        rt: &HostRuntime,
        number: usize,
        line: &str,
    ) -> anyhow::Result<()> {
        let (line, _) = line.split_once('#').unwrap_or((line, ""));
        let line = line.trim();
        if line.is_empty() {
            return Ok(());
        }
        let (keyword, rest) = line.split_once(' ').unwrap_or((line, ""));
        if keyword == "case" {
            return Ok(self.begin(rt.alloc(), rest)?);
        }
        match carry_out(rt.alloc(), &mut self.case.machine, keyword, rest) {
            Ok(()) => Ok(()),
            Err(Fault::Memory(e)) => Err(e.into()),
            Err(Fault::Input(e)) => Err(e.into()),
            Err(fault) => {
                self.differ();
                let name = &self.case.name;
                Ok(println!(rt; "{name}, line {number}: {line}, {fault}")?)
            }
        }
    }

    fn begin(&mut self, heap: Global, name: &str) -> Result<(), Fault> {
        self.case = Case::new(heap, name)?;
        self.count = self.count.saturating_add(1);
        Ok(())
    }

    // The case differs; it counts once, and so does what stands before the first case.
    fn differ(&mut self) {
        self.count = self.count.max(1);
        if !self.case.differs {
            self.case.differs = true;
            self.differing = self.differing.saturating_add(1);
        }
    }

    pub(crate) fn print(&self, rt: &HostRuntime) -> anyhow::Result<()> {
        let Cases {
            count,
            differing,
            ..
        } = self;
        let agree = count.saturating_sub(*differing);
        println!(rt; "{count} cases, {agree} agree, {differing} differ")?;
        if *differing > 0 {
            return Err(anyhow!("a case differs"));
        }
        Ok(())
    }
}

// Carries out one line of a case: before the orders it gives, after them it compares.
fn carry_out(heap: Global, machine: &mut Machine, keyword: &str, rest: &str) -> Result<(), Fault> {
    match keyword {
        "tape" => give_tape(heap, machine, rest),
        "code" => give_code(heap, machine, rest),
        "expect" => compare_outcome(heap, machine, rest),
        _ => {
            let numbers = numbers(heap, rest)?;
            with_numbers(heap, machine, keyword, numbers.as_slice())
        }
    }
}

fn with_numbers(
    heap: Global,
    machine: &mut Machine,
    keyword: &str,
    numbers: &[i128],
) -> Result<(), Fault> {
    match (keyword, numbers) {
        ("steps", [n]) => Ok(machine.run(heap, u32::try_from(*n)?)?),
        ("end", [n]) => {
            machine.buffers.end(u8::try_from(*n)?);
            Ok(())
        }
        _ if machine.before.is_none() => give(heap, machine, keyword, numbers),
        _ => compare(heap, machine, keyword, numbers),
    }
}

fn compare_outcome(heap: Global, machine: &Machine, expected: &str) -> Result<(), Fault> {
    let came = format!(in heap; "{}", Text(machine.outcome))?;
    if came.as_str() == expected {
        return Ok(());
    }
    Err(Fault::Differs(came))
}

fn compare(heap: Global, machine: &mut Machine, keyword: &str, said: &[i128]) -> Result<(), Fault> {
    let found = found(heap, machine, keyword, said)?;
    if agree(keyword, said, found.as_slice()) {
        return Ok(());
    }
    Err(Fault::Differs(format!(in heap; "{found:?}")?))
}

// A number below 0 is also found as the word, or the part of a Q, that it stands for.
fn agree(keyword: &str, said: &[i128], found: &[i128]) -> bool {
    let count = match keyword {
        "nest" => Some(WORDS),
        "q" => Some(PARTS),
        _ => None,
    };
    said.len() == found.len()
        && said.iter().zip(found).all(|(x, y)| match count {
            Some(count) => *x == *y || without_sign(*x, count) == *y,
            None => *x == *y,
        })
}

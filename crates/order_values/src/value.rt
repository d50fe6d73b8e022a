// One value: the bytes before the equals sign, and after it what they say.
use crate::text::Text;
use anyhow::anyhow;
use order::code::{Order, Undecoded};
use order::decode::decode;
use order::table::Row;
use std::fmt;
use std::num::ParseIntError;

// How many values there were, by what their bytes say and by whether it is what the file says.
#[derive(Clone, Copy, Default)]
pub struct Tally {
    orders: u32,
    unknown: u32,
    operand: u32,
    agree: u32,
    differ: u32,
}

impl Tally {
    fn count(&mut self, said: &Result<Order, Undecoded>, agrees: bool) {
        match said {
            Ok(_) => self.orders = self.orders.saturating_add(1),
            Err(Undecoded::UnknownCommand) => self.unknown = self.unknown.saturating_add(1),
            Err(Undecoded::Operand) => self.operand = self.operand.saturating_add(1),
        }
        if agrees {
            self.agree = self.agree.saturating_add(1);
        } else {
            self.differ = self.differ.saturating_add(1);
        }
    }
}

impl fmt::Display for Tally {
    fn fmt<W: fmt::Write>(&self, f: &mut fmt::Formatter<W>) -> fmt::Result {
        let Tally {
            orders,
            unknown,
            operand,
            agree,
            differ,
        } = self;
        let all = agree.saturating_add(*differ);
        writeln!(
            f,
            "{orders} orders, {unknown} unknown commands, {operand} with q or k over 15"
        )?;
        write!(f, "{all} values, {agree} agree, {differ} differ")
    }
}

// What the bytes say, and the row of their command.
#[derive(Clone, Copy)]
struct Value {
    said: Result<Order, Undecoded>,
    row: Row,
}

impl Value {
    fn of(command: u8, x: u8, y: u8, z: u8) -> Value {
        Value {
            said: decode(command, x, y, z),
            row: Row::of(command),
        }
    }
}

impl fmt::Display for Value {
    fn fmt<W: fmt::Write>(&self, f: &mut fmt::Formatter<W>) -> fmt::Result {
        match self.said {
            Ok(order) => write!(f, "{}", Text(order))?,
            Err(Undecoded::UnknownCommand) => write!(f, "unknown command")?,
            Err(Undecoded::Operand) => write!(f, "q or k over 15")?,
        }
        let Row {
            length,
            nest_needed,
            nest_left,
            links_needed,
            links_left,
        } = self.row;
        write!(
            f,
            "; length {length}, nest {nest_needed} to {nest_left}, links {links_needed} to {links_left}"
        )
    }
}

// The command and the bytes after it.
fn bytes(text: &str) -> Result<[u8; 4], ParseIntError> {
    let mut words = text.split_whitespace();
    Ok([
        byte(words.next())?,
        byte(words.next())?,
        byte(words.next())?,
        byte(words.next())?,
    ])
}

// A byte of two hexadecimal digits; 0 where none is given.
fn byte(word: Option<&str>) -> Result<u8, ParseIntError> {
    word.map_or(Ok(0), |digits| u8::from_str_radix(digits, 16))
}

pub(crate) fn compare(rt: &HostRuntime, line: &str, tally: &mut Tally) -> anyhow::Result<()> {
    let Some((before, expected)) = line.split_once(" = ") else {
        return Err(anyhow!("a line without an equals sign"));
    };
    let [command, x, y, z] = bytes(before)?;
    let value = Value::of(command, x, y, z);
    let found = format!(in rt.alloc(); "{value}")?;
    let agrees = found.as_str() == expected;
    tally.count(&value.said, agrees);
    if !agrees {
        println!(rt; "found {found} where the file has {line}")?;
    }
    Ok(())
}

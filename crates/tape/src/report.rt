// What a person is told of a tape.
use line_printer::printed;
use std::io;

// The damaged frames by number, counted from 0.
pub(crate) fn print_damaged(rt: &HostRuntime, numbers: &[u16]) -> io::Result<()> {
    for number in numbers {
        println!(rt; "reader: frame {number} is damaged")?;
    }
    Ok(())
}

// The symbols as text in the line-printer code.
pub(crate) fn print_text(rt: &HostRuntime, symbols: &[u8]) -> io::Result<()> {
    println!(rt; "text:")?;
    for symbol in symbols {
        if let Some(c) = printed(*symbol) {
            print!(rt; "{c}")?;
        }
    }
    println!(rt; "")?;
    Ok(())
}

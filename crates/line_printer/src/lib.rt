// The line-printer code.
#![tactic(auto)]

ghost use Rattle.std.specs.Prelude.{◌≡◌};
ghost use Rattle.line_printer.specs.Code.{printed as printed_char};

// The character that a symbol prints, if it prints one. What is no symbol prints nothing.
pub fn printed(symbol: u8) -> Option<char>
    ensures { result ≡ printed_char symbol }
{
    *CODE.get(usize::from(symbol))?
}

// By rows of eight symbols: octal 00 to 07, 10 to 17 and so on.
static CODE: [Option<char>; 64] = [
    Some(' '),
    None,
    Some('\n'),
    Some('\u{c}'),
    None,
    None,
    Some('%'),
    Some('\''),
    Some(':'),
    Some('='),
    Some('('),
    Some(')'),
    Some('\u{a3}'),
    Some('*'),
    Some(','),
    Some('/'),
    Some('0'),
    Some('1'),
    Some('2'),
    Some('3'),
    Some('4'),
    Some('5'),
    Some('6'),
    Some('7'),
    Some('8'),
    Some('9'),
    None,
    Some('\u{ba}'),
    Some(';'),
    Some('+'),
    Some('-'),
    Some('.'),
    None,
    Some('A'),
    Some('B'),
    Some('C'),
    Some('D'),
    Some('E'),
    Some('F'),
    Some('G'),
    Some('H'),
    Some('I'),
    Some('J'),
    Some('K'),
    Some('L'),
    Some('M'),
    Some('N'),
    Some('O'),
    Some('P'),
    Some('Q'),
    Some('R'),
    Some('S'),
    Some('T'),
    Some('U'),
    Some('V'),
    Some('W'),
    Some('X'),
    Some('Y'),
    Some('Z'),
    None,
    None,
    None,
    None,
    None,
];

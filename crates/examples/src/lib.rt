// Worked examples of one program's orders, proved together; and what two layers say of the symbols of a word.
#![tactic(auto)]

ghost use Rattle.examples.specs.Examples.{Examples};
ghost use Rattle.examples.specs.Symbols.{SymbolsAgree};

// Two and five are summed and given out; an empty nest and a full one stop their orders; an address is bounded after M is added; a tape is read
// up to End Message.
pub fn examples_hold()
    ensures { Examples }
{}

// A transfer and a word have the same eight symbols.
pub fn symbols_agree()
    ensures { SymbolsAgree }
{}

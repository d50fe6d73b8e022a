// Moves between the area of a program and the device on a buffer of any bank.
ghost use Rattle.std.specs.Prelude.{◌≡◌, ◌+◌, ◌&&◌, nat_lt, nat_le, if◌then◌else◌};
ghost use Rattle.std.specs.Option.{option_map};
ghost use Rattle.device.specs.Bank.{standing};
ghost use Rattle.device.specs.Words.{words};
ghost use Rattle.transfer.specs.Symbols.{on_buffer};
ghost use Rattle.transfer.specs.Moves.{effect, in_turn, Confined};
ghost use Rattle.transfer.specs.Keeping.{Keeps};

use crate::reading::read_words;
use crate::writing::write_words;
use device::bank::Bank;
use device::refusal::Refusal;
use std::ops::Range;

// What a transfer order does. `ends`: it ends after End Message.
#[derive(Clone, Copy, PartialEq, Eq, Debug)]
pub enum Transfer {
    Read { ends: bool },
    Write { ends: bool },
    Seek,
}

// A transfer with the parts I and M of its Q: it moves the words I to M of an area, or seeks cell M.
#[derive(Clone, Copy, PartialEq, Eq, Debug)]
pub struct Move {
    pub transfer: Transfer,
    pub i: u16,
    pub m: u16,
}

impl Move {
    // The addresses of the words to move, in an area of so many words; none where one lies outside.
    fn addresses(self, len: usize) -> Range<usize>
        ensures start { result.start ≡ if nat_lt self.m len && nat_le self.i self.m then self.i else 0 }
        ensures end { result.end ≡ if nat_lt self.m len && nat_le self.i self.m then self.m + 1 else 0 }
    {
        let first = usize::from(self.i);
        let last = usize::from(self.m);
        if last < len && first <= last {
            first..last + 1
        } else {
            0..0
        }
    }
}

// How many symbols were moved, and the refusal that stopped the move.
#[derive(Clone, Copy, PartialEq, Eq, Debug)]
pub struct Moved {
    pub symbols: u32,
    pub refusal: Option<Refusal>,
}

// Makes a move between an area and the device on buffer n. Where words to move lie outside the area, none is moved.
#[tactic(auto, using(crate::proofs::Slices::read_slice, crate::proofs::Slices::write_slice))]
pub fn make_move<B: Bank>(x: Move, bank: &mut B, n: u8, area: &mut [u64]) -> Moved
    ensures area { area.new ≡ (effect x area.old (standing (B.devices bank.old) n)).area }
    ensures moved { result.symbols ≡ (effect x area.old (standing (B.devices bank.old) n)).moved }
    ensures refused { option_map words result.refusal ≡ (effect x area.old (standing (B.devices bank.old) n)).refusal }
    ensures after { B.devices bank.new ≡ on_buffer (λ d. (effect x area.old d).device) (B.devices bank.old) n }
    ensures words { Confined x area.old area.new }
{
    let words = x.addresses(area.len());
    match x.transfer {
        Transfer::Read { ends } => read_words(bank, n, ends, &mut area[words]),
        Transfer::Write { ends } => write_words(bank, n, ends, &area[words]),
        Transfer::Seek => Moved {
            symbols: 0,
            refusal: bank.seek(n, x.m).err(),
        },
    }
}

// Makes moves one after another between an area and the device on buffer n, whatever each comes to.
pub fn make_moves<B: Bank>(moves: &[Move], bank: &mut B, n: u8, area: &mut [u64])
    ensures area { area.new ≡ (in_turn moves.now area.old (standing (B.devices bank.old) n)).area }
    ensures after { B.devices bank.new ≡ on_buffer (λ d. (in_turn moves.now area.old d).device) (B.devices bank.old) n }
    ensures keeps { Keeps moves.now (standing (B.devices bank.old) n) area.old area.new }
{
    for x in moves {
        let _ = make_move(*x, bank, n, area);
    }
}

// All that an order of a program can change besides the program's area and its devices.
ghost use Rattle.std.specs.Prelude.{◌≡◌};
ghost use Rattle.registers.specs.Registers.{no_regs};
ghost use Rattle.registers.specs.Sound.{Sound};

use crate::pile::Pile;
use std::marker::Model;
use word::q::Q;
use word::word::Word;

mod changes;
mod readers;

#[derive(Clone, Copy)]
pub struct Registers {
    nest: Pile<Word>,
    links: Pile<u16>,
    qs: [Q; 16],
    overflow: bool,
    test: bool,
    place: u16,
}

// Nest and links are tidy piles; there are sixteen Qs, of which Q0 is zero.
impl Model for Registers {
    ghost use Rattle.std.specs.Prelude.{◌≡◌, map, length, slice_index_or};
    ghost use Rattle.std.proofs.Common.{ap, ◌∙◌};
    ghost use Rattle.word.specs.Qs.{parts};
    ghost use Rattle.registers.specs.Pile.{stacked, Tidy, pile_of, pile_of-stacked};
    ghost use Rattle.registers.specs.Registers.{Regs, bits_of, word_of, word_of-bits_of};

    ghost Value = { Regs };

    ghost view = { λ r. record { nest = map bits_of (stacked r.nest); links = stacked r.links; qs = r.qs; overflow = r.overflow; test = r.test; place = r.place } };

    ghost invariant = { λ r. record { nest_tidy : Tidy (word_of 0) r.nest; links_tidy : Tidy 0 r.links; sixteen : length r.qs ≡ 16; zero : slice_index_or r.qs 0 (parts 0 0 0) ≡ parts 0 0 0 } };

    ghost inverse = { λ v. record { nest = pile_of (word_of 0) (map word_of v.nest); links = pile_of 0 v.links; qs = v.qs; overflow = v.overflow; test = v.test; place = v.place } };

    ghost inverse_ok = { λ r h i. record {
      nest = (ap (pile_of (word_of 0)) (word_of-bits_of (stacked r.nest)) ∙ pile_of-stacked (word_of 0) r.nest h.nest_tidy) i;
      links = pile_of-stacked 0 r.links h.links_tidy i;
      qs = r.qs;
      overflow = r.overflow;
      test = r.test;
      place = r.place;
    } };
}

impl Registers {
    // Nest and links empty, all else zero.
    pub fn new() -> Registers
        ensures { result ≡ no_regs }
    {
        Registers {
            nest: Pile::new(Word::default()),
            links: Pile::new(0),
            qs: [Q::default(); 16],
            overflow: false,
            test: false,
            place: 0,
        }
    }

    // What holds of the registers of every program, whatever its orders did.
    pub fn sound(&self)
        ensures { Sound self.now }
    {
        let _ = self.nest.depth();
    }
}

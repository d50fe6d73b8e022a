// What the registers hold, for whoever asks.
ghost use Rattle.std.specs.Prelude.{◌≡◌, ◌≤◌, length};
ghost use Rattle.std.specs.Option.{option_map};
ghost use Rattle.std.specs.List.{slice_get};
ghost use Rattle.registers.specs.Registers.{bits_of, q_of};

use super::Registers;
use order::code::QNumber;
use word::q::Q;
use word::word::Word;

impl Registers {
    pub fn place(&self) -> u16
        ensures { result ≡ self.now.place }
    {
        self.place
    }

    // V.
    pub fn overflow(&self) -> bool
        ensures { result ≡ self.now.overflow }
    {
        self.overflow
    }

    // T.
    pub fn test(&self) -> bool
        ensures { result ≡ self.now.test }
    {
        self.test
    }

    pub fn nest_depth(&self) -> usize
        ensures answer { result ≡ length self.now.nest }
        ensures within { result ≤ 16 }
    {
        self.nest.depth()
    }

    pub fn link_depth(&self) -> usize
        ensures answer { result ≡ length self.now.links }
        ensures within { result ≤ 16 }
    {
        self.links.depth()
    }

    // N1 is number 0.
    pub fn nest_word(&self, i: usize) -> Option<Word>
        ensures { option_map bits_of result ≡ slice_get self.now.nest i }
    {
        self.nest.get(i)
    }

    // The newest is number 0.
    pub fn link(&self, i: usize) -> Option<u16>
        ensures { result ≡ slice_get self.now.links i }
    {
        self.links.get(i)
    }

    pub fn q(&self, i: usize) -> Option<Q>
        ensures { result ≡ slice_get self.now.qs i }
    {
        self.qs.get(i).copied()
    }

    // The Q that an order names.
    pub fn q_of(&self, q: QNumber) -> Q
        ensures { result ≡ q_of q self.now }
    {
        self.qs[usize::from(q.get())]
    }
}

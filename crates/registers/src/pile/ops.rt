// Making, measuring, reading and changing a pile.
ghost use Rattle.std.specs.Prelude.{◌≡◌, ◌+◌, ◌<◌, ◌≤◌, [], ◌∷◌, length};
ghost use Rattle.std.specs.List.{slice_get};
ghost use Rattle.registers.specs.Pile.{stacked, Tidy};

use super::Pile;

impl<T: Copy> Pile<T> {
    pub(crate) fn new(blank: T) -> Pile<T>
        ensures empty { stacked result ≡ [] }
        ensures tidy { Tidy blank result }
    {
        Pile {
            cells: [blank; 16],
            depth: 0,
        }
    }

    pub(crate) fn depth(&self) -> usize
        ensures answer { result ≡ length (stacked self.now) }
        ensures within { result ≤ 16 }
    {
        self.depth
    }

    // The i-th from the top, which is number 0.
    pub(crate) fn get(&self, i: usize) -> Option<T>
        ensures { result ≡ slice_get (stacked self.now) i }
    {
        if i < self.depth {
            Some(self.cells[self.depth - 1 - i])
        } else {
            None
        }
    }

    pub(crate) fn push(&mut self, x: T)
        requires { length (stacked self.old) < 16 }
        ensures after { stacked self.new ≡ x ∷ stacked self.old }
        ensures tidy { (blank : T) → Tidy blank self.old → Tidy blank self.new }
    {
        let at = self.depth;
        self.cells[at] = x;
        self.depth = at + 1;
    }

    // The newest, removed; its cell is blank again.
    pub(crate) fn pop(&mut self, blank: T) -> T
        requires { 0 < length (stacked self.old) }
        ensures after { stacked self.old ≡ result ∷ stacked self.new }
        ensures fewer { length (stacked self.new) + 1 ≡ length (stacked self.old) }
        ensures room { length (stacked self.new) < 16 }
        ensures tidy { Tidy blank self.old → Tidy blank self.new }
    {
        let at = self.depth - 1;
        let top = self.cells[at];
        self.cells[at] = blank;
        self.depth = at;
        top
    }
}

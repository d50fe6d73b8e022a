// What is done to the slots; the named slot alone is changed.
ghost use Rattle.std.specs.Prelude.{◌≡◌, ℕ, ◌<◌, Some, None};
ghost use Rattle.program.specs.Kept.{update};
ghost use Rattle.host.specs.Calls.{fresh};
ghost use Rattle.slots.specs.Held.{program_at, halted};

use super::{Program, Slots};
use crate::area::Area;

impl Slots {
    // All empty.
    pub fn new() -> Slots
        ensures { (k : ℕ) → program_at result k ≡ None }
    {
        Slots {
            table: [None, None, None, None],
        }
    }

    // A program comes, ready, its registers empty or zero.
    pub fn load(&mut self, p: u8, area: Area)
        requires { p < 4 }
        ensures { (k : ℕ) → program_at self.new k ≡ update (program_at self.old) p (Some (fresh area.base area.size)) k }
    {
        self.table[usize::from(p)] = Some(Program::new(area));
    }

    // A program goes.
    pub fn clear(&mut self, p: u8)
        ensures { (k : ℕ) → program_at self.new k ≡ update (program_at self.old) p None k }
    {
        let p = usize::from(p);
        if p < self.table.len() {
            self.table[p] = None;
        }
    }

    // A program is stopped.
    pub fn stop(&mut self, p: u8)
        ensures { (k : ℕ) → program_at self.new k ≡ update (program_at self.old) p (halted (program_at self.old p)) k }
    {
        let p = usize::from(p);
        if p < self.table.len() {
            if let Some(program) = &mut self.table[p] {
                program.stopped = true;
            }
        }
    }
}

// The code changer: a device with each cell shown through a table, and each write taken back through it.
ghost use Rattle.std.specs.Prelude.{◌≡◌};
ghost use Rattle.device.specs.Layers.{changed};
ghost use Rattle.device.specs.Changing.{changed_sound};

use super::code_table::CodeTable;
use super::device::Device;
use super::refusal::{NotWriting, Refusal};

#[derive(Drop)]
pub struct CodeChanger<D> {
    table: CodeTable,
    below: D,
}

impl<D> CodeChanger<D> {
    pub fn new(table: CodeTable, below: D) -> CodeChanger<D>
        ensures table { result.table ≡ table }
        ensures below { result.below ≡ below }
    {
        CodeChanger { table, below }
    }

    pub fn into_inner(self) -> D
        ensures { result ≡ self.below }
    {
        self.below
    }
}

impl<D: Device> Device for CodeChanger<D> {
    ghost meaning = { λ c. changed c.table.shown (D.Device.meaning c.below) };

    ghost sound = { λ d. changed_sound d.table.shown d.table.symbols (D.Device.meaning d.below) (D.Device.sound d.below) };

    fn read(&mut self) -> Result<u8, Refusal> {
        let symbol = self.below.read()?;
        Ok(self.table.show(symbol))
    }

    fn write(&mut self, symbol: u8) -> Result<(), Refusal> {
        let hidden = self.table.hide(symbol % 64);
        self.below.write(hidden)
    }

    fn seek(&mut self, cell: u16) -> Result<(), Refusal> {
        self.below.seek(cell)
    }

    fn head(&self) -> u16 {
        self.below.head()
    }

    fn writing(&self) -> Result<(), NotWriting> {
        self.below.writing()
    }
}

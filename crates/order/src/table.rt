// The row of each command byte: the length of its order, and the cells of nest and links that it needs and leaves.
ghost use Rattle.std.specs.Prelude.{◌≡◌, true};
ghost use Rattle.order.specs.Table.{row_of, table_agrees};

use self::entries::TABLE;

mod entries;

// The cells that a command needs, and those that it leaves in their place.
#[derive(Clone, Copy, PartialEq, Eq, Debug)]
pub struct Row {
    pub length: u8,
    pub nest_needed: u8,
    pub nest_left: u8,
    pub links_needed: u8,
    pub links_left: u8,
}

impl Row {
    // The row of a command byte.
    pub fn of(command: u8) -> Row
        ensures { result ≡ row_of command }
    {
        row_in(&TABLE, command)
    }
}

// The row of a command byte in a table that agrees with the order list.
fn row_in(table: &[Row; 256], command: u8) -> Row
    requires { table_agrees table.now ≡ true }
    ensures { result ≡ row_of command }
{
    table[usize::from(command)]
}

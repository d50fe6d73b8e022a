// Laws of the order code.
ghost use Rattle.order.specs.Laws.{Sound, Agreement};

// The list has ninety lines, each with a command byte of its own, and no order has more than four bytes or uses more than three cells of the nest and one link.
pub fn list_is_sound()
    ensures { Sound }
{}

// An order that bytes say has the length and the cells of its command's row, and names Q0 to Q15 alone.
pub fn rows_agree()
    ensures { Agreement }
{}

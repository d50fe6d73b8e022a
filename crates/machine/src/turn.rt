// A turn, held beside the machine.
use host::cause::Ending;

// It can be neither copied nor let go: only handing it back ends it, and gives Director's control again.
pub struct Turn {
    // the slot that was entered
    pub(crate) slot: u8,
    // how it ended, once an order has given a cause
    pub(crate) ending: Option<Ending>,
    // how many orders were done
    pub(crate) orders: u64,
}

// What holds of the area, whatever orders store to it.
ghost use Rattle.store_orders.specs.Writes.{WritesWords};

pub fn writes_words()
    ensures { WritesWords }
{}

// Director's control: whoever has it may make the host's calls.

// It cannot be copied, and comes from making a machine or from handing a turn back.
#[derive(Drop)]
pub struct Control {
    pub(crate) seal: (),
}

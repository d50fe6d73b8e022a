// Laws of the host's calls.
ghost use Rattle.host.specs.Laws.{TurnIsSteps};

// A turn is entering, its steps, and handing back.
pub fn turn_is_steps()
    ensures { TurnIsSteps }
{}

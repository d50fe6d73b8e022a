// What holds of the registers of every program, whatever its orders did.
ghost use Rattle.registers.specs.Always.{AlwaysSound};

pub fn registers_sound()
    ensures { AlwaysSound }
{}

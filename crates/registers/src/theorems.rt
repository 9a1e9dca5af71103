// What is proved of the definitions. The bodies do not matter: each contract is a theorem.
ghost use Rattle.registers.specs.Example.{DamageRefused, ExampleStands};
ghost use Rattle.registers.specs.Limits.{LimitsHold};

// A slice that is not refused stands for registers within all limits.
pub fn limits_hold()
    ensures { LimitsHold }
{}

// The definitions, tried on an example.
pub fn example_stands()
    ensures stands { ExampleStands }
    ensures refused { DamageRefused }
{}

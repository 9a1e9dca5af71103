// What is proved of the definitions. The bodies do not matter: each contract is a theorem.
ghost use Rattle.questions.specs.Example.{DamageRefused, ExampleStands};
ghost use Rattle.questions.specs.Meaning.{ReadExactly, SimpleExactly};

// What is read is what the signs stand for; and a question is simple exactly if no register comes again in it.
pub fn meaning_holds()
    ensures read { ReadExactly }
    ensures simple { SimpleExactly }
{}

// The definitions, tried on an example.
pub fn example_stands()
    ensures stands { ExampleStands }
    ensures refused { DamageRefused }
{}

// Why registers, or the signs of a question over them, are turned away.
ghost use Rattle.std.specs.Prelude.{◌≡◌, Some};
ghost use Rattle.questions.specs.declared.refusals.Refusal.TheVariants.{Registers};
ghost use Rattle.questions.specs.Refusals.{number, place};
ghost use Rattle.questions.specs.Words.{refusal_words};

use registers::refusals::Refusal as RegistersRefusal;
use std::error::Error;
use std::fmt;

#[derive(Clone, Copy, PartialEq, Eq, Debug)]
pub enum Refusal {
    // The registers are refused.
    Registers { refusal: RegistersRefusal },
    // The signs of a question stand for none. Place: the first sign that cannot be read, or 8 where there are more
    // than 8 signs.
    Signs { sign: usize },
    // A question goes to a register twice. Place: the register.
    Twice { register: usize },
}

impl Refusal {
    // The number by which the refusal is told. That of registers answers for its own cases, and this for all; so does
    // `place`.
    pub fn number(self) -> u64
        ensures { result ≡ number self }
    {
        match self {
            Refusal::Registers { refusal } => refusal.number(),
            Refusal::Signs { .. } => 3,
            Refusal::Twice { .. } => 4,
        }
    }

    // Where it is so.
    pub fn place(self) -> u64
        ensures { result ≡ place self }
    {
        match self {
            Refusal::Registers { refusal } => refusal.place(),
            Refusal::Signs { sign } => sign as u64,
            Refusal::Twice { register } => register as u64,
        }
    }
}

impl From<RegistersRefusal> for Refusal {
    ghost from_gives = { λ refusal r. r ≡ Registers refusal };

    fn from(refusal: RegistersRefusal) -> Refusal {
        Refusal::Registers { refusal }
    }
}

// That it is refused, and why: the words that those of registers have, since an `impl` is of one type.
impl fmt::Display for Refusal {
    ghost output = { λ refusal. Some (refusal_words refusal) };

    fn fmt<W: fmt::Write>(&self, f: &mut fmt::Formatter<W>) -> fmt::Result {
        let number = self.number();
        let place = self.place();
        write!(f, "refused {number} {place}")
    }
}

impl Error for Refusal {}

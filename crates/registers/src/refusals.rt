// Why an input is turned away.
ghost use Rattle.std.specs.Prelude.{◌≡◌, Some};
ghost use Rattle.registers.specs.Refusals.{number, place, words};

use std::error::Error;
use std::fmt;

#[derive(Clone, Copy, PartialEq, Eq, Debug)]
pub enum Refusal {
    // The registers are cut short or pass a limit. Place: the register, or 8 for their count and for what stands
    // behind the last.
    Layout { register: usize },
    // A key has two blocks, or a block has no row. Place: the register.
    Blocks { register: usize },
}

impl Refusal {
    // The number by which the refusal is told.
    pub fn number(self) -> u64
        ensures { result ≡ number self }
    {
        match self {
            Refusal::Layout { .. } => 1,
            Refusal::Blocks { .. } => 2,
        }
    }

    // Where it is so.
    pub fn place(self) -> u64
        ensures { result ≡ place self }
    {
        match self {
            Refusal::Layout { register } => register as u64,
            Refusal::Blocks { register } => register as u64,
        }
    }
}

// As the programs tell it.
impl fmt::Display for Refusal {
    ghost output = { λ r. Some (words r) };

    fn fmt<W: fmt::Write>(&self, f: &mut fmt::Formatter<W>) -> fmt::Result {
        write!(f, "refused {} {}", self.number(), self.place())
    }
}

impl Error for Refusal {}

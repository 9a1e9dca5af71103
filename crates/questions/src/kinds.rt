// Tests of a row: one of its columns against a number.
ghost use Rattle.std.specs.Prelude.{◌≡◌, ◌<◌, Some, length};
ghost use Rattle.questions.specs.Signs.{Decodes};
ghost use Rattle.questions.specs.Tests.{passes};
ghost use Rattle.questions.specs.Words.{kind_words, test_words, unknown_words};

use std::error::Error;
use std::fmt;

#[derive(Clone, Copy, PartialEq, Eq, Debug)]
pub enum Kind {
    // The column is that number.
    Is,
    // It is not.
    IsNot,
    // It is at least that number.
    AtLeast,
    // It is at most that number.
    AtMost,
}

// A number that stands for no kind.
#[derive(Clone, Copy, PartialEq, Eq, Debug)]
pub struct UnknownKind(pub u64);

#[derive(Clone, Copy)]
pub struct Test {
    pub column: usize,
    pub kind: Kind,
    pub number: u64,
}

// The kinds stand as numbers in a sign: 0 to 3 in their order.
impl TryFrom<u64> for Kind {
    type Error = UnknownKind;

    ghost try_from_gives = { Decodes };

    fn try_from(number: u64) -> Result<Kind, UnknownKind> {
        match number {
            0 => Ok(Kind::Is),
            1 => Ok(Kind::IsNot),
            2 => Ok(Kind::AtLeast),
            3 => Ok(Kind::AtMost),
            _ => Err(UnknownKind(number)),
        }
    }
}

impl fmt::Display for Kind {
    ghost output = { λ kind. Some (kind_words kind) };

    fn fmt<W: fmt::Write>(&self, f: &mut fmt::Formatter<W>) -> fmt::Result {
        f.write_str(match self {
            Kind::Is => "is",
            Kind::IsNot => "is not",
            Kind::AtLeast => "at least",
            Kind::AtMost => "at most",
        })
    }
}

impl fmt::Display for UnknownKind {
    ghost output = { λ e. Some (unknown_words e) };

    fn fmt<W: fmt::Write>(&self, f: &mut fmt::Formatter<W>) -> fmt::Result {
        write!(f, "no kind of test has number {}", self.0)
    }
}

impl Error for UnknownKind {}

impl Test {
    // Whether a row passes the test.
    pub fn passes(self, row: &[u64]) -> bool
        requires { self.column < length row.now }
        ensures { result ≡ passes self row.now }
    {
        let cell = row[self.column];
        match self.kind {
            Kind::Is => cell == self.number,
            Kind::IsNot => cell != self.number,
            Kind::AtLeast => cell >= self.number,
            Kind::AtMost => cell <= self.number,
        }
    }
}

// What the test asks of a column.
impl fmt::Display for Test {
    ghost output = { λ test. Some (test_words test) };

    fn fmt<W: fmt::Write>(&self, f: &mut fmt::Formatter<W>) -> fmt::Result {
        let Test {
            column,
            kind,
            number,
        } = self;
        write!(f, "column {column} {kind} {number}")
    }
}

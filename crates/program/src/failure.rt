// Why a program ends without an answer.
ghost use Rattle.program.specs.Words.{failure_words};

use std::{fmt, io};

#[derive(Drop)]
pub(crate) enum Failure {
    // More than one argument.
    Usage { program: &'static str },
    // The arguments are no text, or there is no memory for them.
    Arguments { reason: io::Error },
    // The file was not read to its end.
    File { name: String, reason: io::Error },
    // Nor was standard input.
    Stdin { reason: io::Error },
    // The answer was not written.
    Output { reason: io::Error },
}

// As the programs tell it. What an `io::Error` prints is not stated, so nor are the words that end with one.
impl fmt::Display for Failure {
    ghost output = { failure_words };

    fn fmt<W: fmt::Write>(&self, f: &mut fmt::Formatter<W>) -> fmt::Result {
        match self {
            Failure::Usage { program } => {
                write!(f, "more than one argument; usage: {program} [FILE]")
            }
            Failure::Arguments { reason } => write!(f, "cannot read the arguments: {reason}"),
            Failure::File { name, reason } => write!(f, "cannot read {name}: {reason}"),
            Failure::Stdin { reason } => write!(f, "cannot read standard input: {reason}"),
            Failure::Output { reason } => write!(f, "cannot write the answer: {reason}"),
        }
    }
}

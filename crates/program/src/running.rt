// Running a program.
ghost use Rattle.std.specs.Prelude.{◌≡◌, Ok, OnOk, is_ok};
ghost use Rattle.program.specs.Ending.{OnSuccess, status};

use crate::failure::Failure;
use input::from_parts::FromParts;
use input::source;
use std::process::ExitCode;
use std::{env, io};

// A program at work: what it may use of its host, and its name.
#[derive(Clone, Copy)]
struct Program<'a> {
    rt: &'a HostRuntime,
    name: &'static str,
}

impl Program<'_> {
    // What is made of the file that the argument names, or of standard input where there is no argument.
    fn read<P: FromParts>(&self) -> Result<P, Failure> {
        let mut words = env::args(self.rt).map_err(|reason| Failure::Arguments { reason })?;
        let _program = words.next();
        let file = words.next();
        if words.next().is_some() {
            return Err(Failure::Usage { program: self.name });
        }
        match file {
            Some(name) => {
                source::from_file(self.rt, name.as_str()).map_err(|reason| Failure::File {
                    name,
                    reason,
                })
            }
            None => source::from_stdin(self.rt).map_err(|reason| Failure::Stdin { reason }),
        }
    }

    // Reads the input and tells of it. Nothing is told but of what was read.
    fn answer<P: FromParts, F: FnOnce(&P) -> io::Result<()>>(&self, tell: F) -> Result<(), Failure>
        requires { F.IsAlwaysCallable tell }
        ensures { OnOk result ((value : _) × F.post tell value (Ok tt)) }
    {
        let value: P = self.read()?;
        tell(&value).map_err(|reason| Failure::Output { reason })
    }

    // With which status the program ends; where it failed, it says why on standard error.
    fn end(&self, told: Result<(), Failure>) -> ExitCode
        ensures { result ≡ status (is_ok told) }
    {
        match told {
            Ok(()) => ExitCode::SUCCESS,
            Err(failure) => {
                let _ = eprintln!(self.rt; "{}: {failure}", self.name);
                ExitCode::FAILURE
            }
        }
    }
}

// Reads the input and tells of it; where that failed, it says why on standard error. The status is that of success only
// where what was read was told without an error.
pub fn run<P: FromParts, F: FnOnce(&P) -> io::Result<()>>(
    rt: &HostRuntime,
    name: &'static str,
    tell: F,
) -> ExitCode
    requires { F.IsAlwaysCallable tell }
    ensures { OnSuccess result ((value : _) × F.post tell value (Ok tt)) }
{
    let program = Program { rt, name };
    let told = program.answer(tell);
    program.end(told)
}

// Reads registers and questions from the file that the argument names, or from standard input, and says what stands in
// them, or why they are refused.
#![tactic(auto)]

mod lines;
mod parts;
mod words;

use input_bytes::bytes::Input;
use program::run;
use std::process::ExitCode;

fn main(rt: HostRuntime) -> ExitCode {
    run(&rt, "ask_questions", |input: &Input| {
        lines::tell(rt.alloc(), rt.stdout(), input.numbers(), input.bytes())
    })
}

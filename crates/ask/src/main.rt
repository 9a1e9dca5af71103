// Reads registers from the file that the argument names, or from standard input, and says what stands in them, or why
// they are refused.
#![tactic(auto)]

mod lines;

use input::numbers::Numbers;
use program::run;
use std::process::ExitCode;

fn main(rt: HostRuntime) -> ExitCode {
    run(&rt, "ask", |numbers: &Numbers| {
        lines::tell(rt.alloc(), rt.stdout(), numbers.as_slice())
    })
}

// Tries look-ups in made-up registers, or, with the argument `figures`, times the check of registers and look-ups in
// them.
#![tactic(auto)]

mod answers;
mod figures;
mod samples;
mod searches;

use timing::answers_or_figures;

fn main(rt: HostRuntime) -> anyhow::Result<()> {
    answers_or_figures(&rt, "bench", || answers::tell(&rt), || figures::tell(&rt))
}

// Tries the reading of made-up questions, or, with the argument `figures`, times it.
#![tactic(auto)]

mod readings;

use readings::{COPIES, FORMS};
use timing::{RUNS, answers_or_figures};

// Prints how many questions of each form are read as they should.
fn tell_answers(rt: &HostRuntime) -> anyhow::Result<()> {
    for form in FORMS {
        let signs = form.make(rt.alloc())?;
        let right = form.count_right(&signs);
        let name = form.name;
        println!(rt; "{name}: {right} of {COPIES} questions read as expected")?;
    }
    println!(rt; "bench_questions figures: prints the times")?;
    Ok(())
}

// Prints the times to read questions.
fn tell_figures(rt: &HostRuntime) -> anyhow::Result<()> {
    println!(rt; "The least time of {RUNS} runs.")?;
    println!(rt; "questions over 8 registers of 8 columns, with 4 tests at each sign")?;
    let mut sum = 0u64;
    for form in FORMS {
        let signs = form.make(rt.alloc())?;
        let read = readings::time_read(rt, &signs)?;
        let time = read.per(COPIES as usize);
        let name = form.name;
        println!(rt; "{time} ns to read {name}")?;
        sum = sum.wrapping_add(read.sum);
    }
    println!(rt; "             the sum of what was found is {sum}")?;
    Ok(())
}

fn main(rt: HostRuntime) -> anyhow::Result<()> {
    answers_or_figures(
        &rt,
        "bench_questions",
        || tell_answers(&rt),
        || tell_figures(&rt),
    )
}

// Whether the answers are right that are timed.
use crate::samples::{Question, Rows, Samples, Shape};
use crate::searches::Times;
use registers::{check, look_up};

// The registers that are asked.
const SMALL: Shape = Shape {
    name: "8 registers of 64 blocks",
    blocks: 64,
    columns: 2,
    rows: Rows::Few,
    copies: 1,
};

// How many of the keys are found by a look-up in the slice alone.
fn count_found(base: &[u64], questions: &[Question]) -> usize {
    questions
        .iter()
        .filter(|question| matches!(look_up(base, question.register, question.key), Ok(Some(_))))
        .count()
}

// Prints how many keys are found of those that are there, and of as many others, and whether registers are refused that
// are cut short.
pub(crate) fn tell(rt: &HostRuntime) -> anyhow::Result<()> {
    let base = SMALL.make(rt.alloc())?;
    let base = base.as_slice();
    let samples = Samples::each(rt.alloc(), SMALL)?;
    let questions = samples.questions();
    let mut times = Times::default();
    times.add_run(rt, base, questions)?;
    let name = SMALL.name;
    let found = count_found(base, questions.present);
    let indexed = times.present.count;
    println!(rt; "{name}: {found} keys found, {indexed} by the index")?;
    let found = count_found(base, questions.absent);
    let indexed = times.absent.count;
    println!(rt; "of 512 other keys: {found} found, {indexed} by the index")?;
    let refused = check(&base[..base.len().saturating_sub(1)]).is_err();
    println!(rt; "refused where the last number is missing: {refused}")?;
    println!(rt; "bench figures: prints the times")?;
    Ok(())
}

// The times of registers of several sizes.
ghost use Rattle.std.specs.Prelude.{◌<◌};

use crate::samples::{QUESTIONS, Rows, Samples, Shape};
use crate::searches::Times;
use registers::check;
use registers::layout::survey;
use std::io;
use timing::{RUNS, Tenths, Timed};

// The registers that are timed.
const SHAPES: [Shape; 4] = [
    Shape {
        name: "8 registers of 4,096 blocks of 1 to 4 rows of 2 columns",
        blocks: 4096,
        columns: 2,
        rows: Rows::Few,
        copies: 1,
    },
    Shape {
        name: "8 registers of 64 blocks of 1 to 4 rows of 2 columns",
        blocks: 64,
        columns: 2,
        rows: Rows::Few,
        copies: 16,
    },
    Shape {
        name: "8 registers of 2 blocks of one row of 2 columns",
        blocks: 2,
        columns: 2,
        rows: Rows::Few,
        copies: 256,
    },
    Shape {
        name: "8 registers of 4,096 blocks of 64 rows of 8 columns",
        blocks: 4096,
        columns: 8,
        rows: Rows::Most,
        copies: 1,
    },
];

// The time of work on all copies, each of so many numbers.
fn time_copies<F: Fn(&[u64]) -> Option<u64>>(
    rt: &HostRuntime,
    copies: &[u64],
    len: usize,
    work: F,
) -> io::Result<Timed>
    requires { F.IsAlwaysCallable work }
{
    let len = len.max(1);
    Timed::of_runs(
        rt,
        RUNS,
        ||
            requires size { 0 < len }
            requires calls { F.IsAlwaysCallable work }
        { copies.chunks(len).filter_map(|copy| work(copy)).sum() },
    )
}

// The times of an index over registers of a shape.
fn time_index(rt: &HostRuntime, base: &[u64], shape: Shape) -> anyhow::Result<Times> {
    let samples = Samples::mixed(rt.alloc(), shape)?;
    let mut times = Times::default();
    for _run in 0..RUNS {
        times.add_run(rt, base, samples.questions())?;
    }
    Ok(times)
}

// Prints one time, and what takes it.
fn line(rt: &HostRuntime, time: Tenths, what: &str) -> anyhow::Result<()> {
    println!(rt; "{time} ns {what}")?;
    Ok(())
}

// Prints the times of one shape: the check, the survey and the index, each as soon as it is timed.
fn tell_shape(rt: &HostRuntime, shape: Shape) -> anyhow::Result<()> {
    let base = shape.make(rt.alloc())?;
    let copies = shape.copies.max(1) as usize;
    let len = base.len() / copies;
    let base = base.as_slice();
    let name = shape.name;
    println!(rt; "{name}, {len} numbers")?;
    let checked = time_copies(rt, base, len, |copy| check(copy).ok().map(|()| 1))?;
    line(rt, checked.per(copies), "to check them")?;
    let surveyed = time_copies(rt, base, len, |copy| {
        let registers = survey(copy).ok()?;
        Some(registers.directory.blocks as u64)
    })?;
    line(rt, surveyed.per(copies), "to survey them")?;
    let times = time_index(rt, &base[..len], shape)?;
    line(rt, times.fill.per(1), "to make room and enter all blocks")?;
    for (finds, what) in [
        (times.present, "to look up a key that is there"),
        (times.read, "to look it up and add up its first row"),
        (times.absent, "to look up a key that is not there"),
    ] {
        line(rt, finds.per(QUESTIONS as usize), what)?;
    }
    let sum = checked
        .sum
        .wrapping_add(surveyed.sum)
        .wrapping_add(times.sum());
    println!(rt; "             the sum of what was found is {sum}")?;
    Ok(())
}

// Prints the times of all shapes.
pub(crate) fn tell(rt: &HostRuntime) -> anyhow::Result<()> {
    println!(rt; "The least time of {RUNS} runs.")?;
    for shape in SHAPES {
        tell_shape(rt, shape)?;
    }
    Ok(())
}

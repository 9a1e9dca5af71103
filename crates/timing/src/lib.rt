// How long work takes, what it finds, and whether a benchmark tells answers or figures.
#![tactic(auto)]

mod choosing;

ghost use Rattle.std.specs.Prelude.{◌≡◌, ◌+◌, ◌*◌, ◌/◌, ◌%◌, max, Some, IfOk, OnOk, OnErr};
ghost use Rattle.std.specs.Duration.{as_nanos};
ghost use Rattle.timing.specs.Finds.{found_of};
ghost use Rattle.timing.specs.Runs.{untimed, with_run, Adds, IsOfRuns};
ghost use Rattle.timing.specs.Printing.{printed};

pub use choosing::answers_or_figures;
use std::iter::Sum;
use std::time::{Clock, Duration, Instant};
use std::{fmt, io};

// How many runs the benchmarks take the least time of.
pub const RUNS: usize = 15;

// What a run found: how many keys or copies, and what they add up to. Both wrap.
#[derive(Clone, Copy, Debug, PartialEq, Eq, Default)]
pub struct Found {
    pub count: u64,
    pub sum: u64,
}

impl Sum<u64> for Found {
    ghost sum_gives = { λ parts found. found ≡ found_of parts };

    // A loop, whose invariant is the promise itself; a fold would need a lemma besides.
    fn sum<I: Iterator<Item = u64>>(parts: I) -> Found {
        let mut found = Found::default();
        for part in parts {
            found.count = found.count.wrapping_add(1);
            found.sum = found.sum.wrapping_add(part);
        }
        found
    }
}

// The least time of several runs in nanoseconds, how much the last one found, and the sum of what all found, so that
// none is left out.
#[derive(Clone, Copy, Debug, PartialEq, Eq)]
pub struct Timed {
    pub least: u64,
    pub count: u64,
    pub sum: u64,
}

// No run yet. The least of no times is the largest number.
impl Default for Timed {
    ghost is_default = { λ timed. timed ≡ untimed };

    fn default() -> Timed {
        Timed {
            least: u64::MAX,
            count: 0,
            sum: 0,
        }
    }
}

impl Timed {
    // Adds a run that took so long and found so much.
    pub fn add(&mut self, taken: Duration, found: Found)
        ensures { self.new ≡ with_run self.old (as_nanos taken) found }
    {
        let nanos = u64::try_from(taken.as_nanos()).unwrap_or(u64::MAX);
        self.least = self.least.min(nanos);
        self.count = found.count;
        self.sum = self.sum.wrapping_add(found.sum);
    }

    // Times a run of work, and adds it.
    pub fn run<F: FnOnce() -> Found>(&mut self, clock: &impl Clock, work: F) -> io::Result<()>
        requires { F.IsAlwaysCallable work }
        ensures ok { OnOk result (Adds (F.post work) self.old self.new) }
        ensures err { OnErr result (self.new ≡ self.old) }
    {
        let start = Instant::now(clock)?;
        let found = work();
        self.add(start.elapsed(clock)?, found);
        Ok(())
    }

    // Times so many runs of work.
    pub fn of_runs<F: Fn() -> Found>(clock: &impl Clock, runs: usize, work: F) -> io::Result<Timed>
        requires { F.IsAlwaysCallable work }
        ensures { IfOk result (IsOfRuns (F.post work) runs) }
    {
        let mut timed = Timed::default();
        for _run in 0..runs {
            timed.run(clock, &work)?;
        }
        Ok(timed)
    }

    // The least time of one of so many parts of a run, where no part counts as one.
    pub fn per(&self, parts: usize) -> Tenths
        ensures { result.0 ≡ self.now.least * 10 / max parts 1 }
    {
        Tenths(u128::from(self.least) * 10 / parts.max(1) as u128)
    }
}

// Tenths of a nanosecond.
#[derive(Clone, Copy, Debug, PartialEq, Eq)]
pub struct Tenths(pub u128);

impl fmt::Display for Tenths {
    ghost output = { λ tenths. Some (printed tenths.0) };

    fn fmt<W: fmt::Write>(&self, f: &mut fmt::Formatter<W>) -> fmt::Result {
        let whole = self.0 / 10;
        let tenths = self.0 % 10;
        write!(f, "{whole:>10}.{tenths}")
    }
}

#[cfg(test)]
mod tests {
    use super::*;
    use std::cell::Cell;
    use std::process::Abort;
    use std::test::Fail;

    // A clock on which each span between two readings is 10 nanoseconds shorter than the one before.
    #[derive(Drop)]
    struct Hasty {
        now: Cell<u64>,
        span: Cell<u64>,
    }

    impl Clock for Hasty {
        fn monotonic(&self) -> io::Result<Duration> {
            self.now.set(self.now.get().wrapping_add(self.span.get()));
            self.span.set(self.span.get().wrapping_sub(10));
            Ok(Duration::from_nanos(self.now.get()))
        }

        fn since_1970(&self) -> io::Result<Duration> {
            self.monotonic()
        }
    }

    // Three runs of the sum of two parts, by that clock: of 90, 70 and 50 nanoseconds.
    fn three_runs() -> io::Result<Timed> {
        let clock = Hasty {
            now: Cell::new(0),
            span: Cell::new(100),
        };
        Timed::of_runs(&clock, 3, || [4u64, 7].iter().copied().sum())
    }

    #[test]
    fn sums_wrap(rt: HostRuntime) -> Result<(), Fail> {
        let found: Found = [u64::MAX, 3].iter().copied().sum();
        assert_eq!(&rt; found, Found { count: 2, sum: 2 });
        Ok(())
    }

    #[test]
    fn the_least_of_three_runs(rt: HostRuntime) -> Result<(), Fail> {
        let timed = three_runs()?;
        assert_eq!(&rt;
            timed,
            Timed {
                least: 50,
                count: 2,
                sum: 33
            }
        );
        Ok(())
    }

    #[test]
    fn a_third_of_a_run(rt: HostRuntime) -> Result<(), Fail> {
        let third = three_runs()?.per(3);
        assert_eq!(&rt; third, Tenths(166));
        assert_eq!(&rt; format!(in rt.alloc(); "{third}")?.as_str(), "        16.6");
        Ok(())
    }
}

// A summary and a report in words.
ghost use Rattle.std.specs.Prelude.{Some};
ghost use Rattle.summaries.specs.Words.{counted, report_words, told_contested, words};

use crate::summary::{Report, Summary};
use std::fmt;

// So many of what a word stands for. A type, since `write!` takes what is printed; its text is `counted`.
#[derive(Drop)]
struct Count {
    number: usize,
    word: &'static str,
}

impl fmt::Display for Count {
    ghost output = { λ c. Some (counted c.number c.word.now) };

    #[tactic(auto, unfolding(crate::specs::Words::counted))]
    fn fmt<W: fmt::Write>(&self, f: &mut fmt::Formatter<W>) -> fmt::Result {
        let ending = if self.number == 1 { "" } else { "s" };
        write!(f, "{} {}{ending}", self.number, self.word)
    }
}

// Under how many keys the boards say different things. A type, as `Count` is; its text is `told_contested`.
#[derive(Drop)]
struct Contested {
    keys: usize,
}

impl fmt::Display for Contested {
    ghost output = { λ c. Some (told_contested c.keys) };

    #[tactic(auto, unfolding(crate::specs::Words::told_contested))]
    fn fmt<W: fmt::Write>(&self, f: &mut fmt::Formatter<W>) -> fmt::Result {
        let keys = Count {
            number: self.keys,
            word: "key",
        };
        let have = if self.keys == 1 { "has" } else { "have" };
        write!(f, "{keys} {have} more than one row")
    }
}

impl fmt::Display for Summary {
    ghost output = { λ s. Some (words s) };

    fn fmt<W: fmt::Write>(&self, f: &mut fmt::Formatter<W>) -> fmt::Result {
        let keys = Count {
            number: self.blocks,
            word: "key",
        };
        let columns = Count {
            number: self.columns,
            word: "column",
        };
        let rows = Count {
            number: self.rows,
            word: "row",
        };
        let contested = Contested {
            keys: self.contested,
        };
        write!(f, "{keys}, {columns}, {rows}; {contested}")
    }
}

// A line for each register, in order.
impl fmt::Display for Report<'_> {
    ghost output = { λ r. Some (report_words r.registers.base.now) };

    fn fmt<W: fmt::Write>(&self, f: &mut fmt::Formatter<W>) -> fmt::Result {
        for (register, summary) in self.summaries().iter().enumerate() {
            writeln!(f, "register {register}: {summary}")?;
        }
        Ok(())
    }
}

// What is told of each register of a slice.
ghost use Rattle.std.specs.Prelude.{◌≡◌, map, take, None, Some, MatchResult};
ghost use Rattle.std.specs.List.{range_with_len};
ghost use Rattle.registers.specs.Layout.{count_of};
ghost use Rattle.registers.specs.Refusals.{refusal};
ghost use Rattle.summaries.specs.Summary.{summary_of};

use registers::index::Index;
use registers::layout::{MAX_REGISTERS, survey};
use registers::refusals::Refusal;
use registers::registers::Registers;
use registers::room::{FreeRoom, FullRoom};
use std::array;

// How large a register is, and under how many of its keys more than one row stands.
#[derive(Clone, Copy)]
pub struct Summary {
    pub blocks: usize,
    pub columns: usize,
    pub rows: usize,
    pub contested: usize,
}

// The registers of a slice that are not refused, and what is told of each. The summaries stand in room for eight, so
// that `summarize` cannot fail for want of memory.
#[derive(Clone, Copy)]
pub struct Report<'a> {
    pub registers: Registers<'a>,
    summaries: [Summary; MAX_REGISTERS],
    pub ghost sound: { refusal registers.base.now ≡ None },
    pub ghost told: { take registers.directory.count summaries ≡ map (summary_of registers.base.now) (range_with_len 0 (count_of registers.base.now)) },
}

// Goes over the blocks of one register, once for both sums.
fn sum_up(index: &Index, t: usize) -> Summary
    ensures { result ≡ summary_of index.now.registers.base.now t }
{
    let mut rows = 0;
    let mut contested = 0;
    // One walk for both sums: two chains would read each block twice, and the closure of a fold would need the bound of
    // each sum besides.
    for i in 0..index.blocks(t) {
        let block = index.block(t, i);
        rows += block.rows;
        if block.rows > 1 {
            contested += 1;
        }
    }
    Summary {
        blocks: index.blocks(t),
        columns: index.columns(t),
        rows,
        contested,
    }
}

// A summary of each register, or the refusal.
pub fn summarize(base: &[u64]) -> Result<Report, Refusal>
    ensures { MatchResult result (λ r. r.registers.base.now ≡ base.now) (λ e. refusal base.now ≡ Some e) }
{
    let registers = survey(base)?;
    let FreeRoom {
        mut slots,
        mut places,
    } = FullRoom::new();
    let index = registers.indexed(&mut slots, &mut places)?;
    let summaries = array::from_fn(|t| sum_up(&index, t));
    Ok(Report {
        registers,
        summaries,
    })
}

impl Report<'_> {
    // The summaries, in the order of the registers.
    pub fn summaries(&self) -> &[Summary]
        ensures { result.now ≡ map (summary_of self.now.registers.base.now) (range_with_len 0 (count_of self.now.registers.base.now)) }
    {
        &self.summaries[..self.registers.directory.count]
    }
}

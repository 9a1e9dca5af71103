// Look-ups through an index, in room of several sizes.
ghost use Rattle.std.specs.Prelude.{◌≤◌};
ghost use Rattle.registers.specs.Indexing.{Enough};

use crate::samples::{Question, Questions};
use registers::filling::{MAX_PLACES, MAX_SLOTS};
use registers::index::Index;
use registers::layout::survey;
use registers::registers::Registers;
use registers::room::FreeRoom;
use std::io;
use std::time::Instant;
use timing::{Found, Timed};

// The number of the block under a key.
fn number_under(index: &Index, question: &Question) -> Option<u64> {
    Some(index.find(question.register, question.key)? as u64)
}

// The sum of the first row under a key.
fn first_row(index: &Index, question: &Question) -> Option<u64> {
    let number = index.find(question.register, question.key)?;
    let block = index.block(question.register, number);
    if block.rows == 0 {
        return None;
    }
    let row = block.row(0);
    Some(row.iter().fold(0u64, |sum, x| sum.wrapping_add(*x)))
}

// What is found under all keys. Joined with the reading of the clock, the loop was up to a sixth slower.
#[inline(never)]
fn find_all<F: Fn(&Index, &Question) -> Option<u64>>(
    index: &Index,
    questions: &[Question],
    find: F,
) -> Found
    requires { F.IsAlwaysCallable find }
{
    questions
        .iter()
        .filter_map(|question| find(index, question))
        .sum()
}

// The times of an index: to make room and enter all blocks, to look keys up that are there, to read their first rows
// too, and to look keys up that are not there.
#[derive(Clone, Copy, Default)]
pub struct Times {
    pub fill: Timed,
    pub present: Timed,
    pub read: Timed,
    pub absent: Timed,
}

impl Times {
    // The sum of what all runs found.
    pub(crate) fn sum(&self) -> u64 {
        [self.present, self.read, self.absent]
            .iter()
            .fold(0u64, |sum, timed| sum.wrapping_add(timed.sum))
    }

    // Adds the times of the look-ups of one run.
    fn add_finds(
        &mut self,
        rt: &HostRuntime,
        index: &Index,
        questions: Questions,
    ) -> io::Result<()> {
        self.present
            .run(rt, || find_all(index, questions.present, number_under))?;
        self.absent
            .run(rt, || find_all(index, questions.absent, number_under))?;
        self.read
            .run(rt, || find_all(index, questions.present, first_row))
    }

    // Adds one run in room of a given size. The room is made here, since that is timed, and so its bound is asked for:
    // a closure that makes it could not be lent, since no bound `FnOnce` may name a size.
    fn add_in_room<const SLOTS: usize, const PLACES: usize>(
        &mut self,
        rt: &HostRuntime,
        registers: Registers,
        questions: Questions,
    ) -> anyhow::Result<()>
        requires enough { Enough registers.base.now registers.directory SLOTS PLACES }
        requires sizes { (SLOTS ≤ 65544) × (PLACES ≤ 32768) }
    {
        let start = Instant::now(rt)?;
        let FreeRoom {
            mut slots,
            mut places,
        } = FreeRoom::<SLOTS, PLACES>::new();
        let index = registers.indexed(&mut slots, &mut places)?;
        self.fill.add(start.elapsed(rt)?, Found::default());
        self.add_finds(rt, &index, questions)?;
        Ok(())
    }

    // Adds one run in room of a size that suits the registers: that of a small, a middle or a full room.
    pub(crate) fn add_run(
        &mut self,
        rt: &HostRuntime,
        base: &[u64],
        questions: Questions,
    ) -> anyhow::Result<()> {
        let registers = survey(base)?;
        match registers.directory.blocks {
            0..=16 => self.add_in_room::<40, 16>(rt, registers, questions),
            17..=512 => self.add_in_room::<1032, 512>(rt, registers, questions),
            _ => self.add_in_room::<MAX_SLOTS, MAX_PLACES>(rt, registers, questions),
        }
    }
}

// Checking a slice of registers, and looking one key up in it.
ghost use Rattle.std.specs.Prelude.{◌≡◌, ◌+◌, ◌*◌, ◌≤◌, None, Some, MatchResult};
ghost use Rattle.registers.specs.declared.refusals.Refusal.TheVariants.{Blocks};
ghost use Rattle.registers.specs.Answers.{LookedUp, Shows};
ghost use Rattle.registers.specs.Base.{proper_register};
ghost use Rattle.registers.specs.Indexing.{Enough};
ghost use Rattle.registers.specs.Refusals.{answered, misstated, refusal, refused_at};
ghost use Rattle.registers.specs.Views.{register_held};

use crate::layout::survey;
use crate::refusals::Refusal;
use crate::registers::{Register, Registers};
use crate::room::{FreeRoom, FullTable, MiddleRoom, MiddleTable, SmallRoom};

impl Registers<'_> {
    // Enters all registers into room of a given size, only to see whether they are proper. It stands apart from
    // `try_enter`, which enters one register of which only its own table is there: a function for both would be told by
    // a closure what to enter, and would ask what both ask.
    fn try_fill<const SLOTS: usize, const PLACES: usize>(
        &self,
        room: FreeRoom<SLOTS, PLACES>,
    ) -> Result<(), Refusal>
        requires { Enough self.now.base.now self.now.directory SLOTS PLACES }
        ensures { result ≡ answered (refused_at Blocks (misstated self.now.base.now)) tt }
    {
        let FreeRoom {
            mut slots,
            mut places,
        } = room;
        self.fill(&mut slots, &mut places)
    }

    // The refusal of many registers, tried one after the other: their tables are not needed at once. It stands apart,
    // so that a check of few blocks takes no time to clear the table of one register of many.
    #[inline(never)]
    fn try_each(&self) -> Result<(), Refusal>
        ensures { result ≡ answered (refused_at Blocks (misstated self.now.base.now)) tt }
    {
        // By number, which is what a refusal tells; with `find` the answer would need a function more.
        for t in 0..self.directory.count {
            if !self.register(t).is_proper() {
                return Err(Refusal::Blocks { register: t });
            }
        }
        Ok(())
    }

    // The same in room that is no larger than the registers ask for: b places and 2 b + 8 slots for at most b blocks.
    fn try_all(&self) -> Result<(), Refusal>
        ensures { result ≡ answered (refused_at Blocks (misstated self.now.base.now)) tt }
    {
        let blocks = self.directory.blocks;
        if blocks <= 16 {
            self.try_fill(SmallRoom::new())
        } else if blocks <= 512 {
            self.try_fill(MiddleRoom::new())
        } else {
            self.try_each()
        }
    }
}

impl<'a> Register<'a> {
    // Enters the register into room of a given size, only to see whether it is proper; with one table and not eight,
    // and so apart from `try_fill`.
    fn try_enter<const SLOTS: usize, const PLACES: usize>(
        &self,
        room: FreeRoom<SLOTS, PLACES>,
    ) -> bool
        requires { (2 * self.now.section.blocks + 1 ≤ SLOTS) × (self.now.section.blocks ≤ PLACES) }
        ensures { result ≡ proper_register (register_held self.now) }
    {
        let blocks = self.section.blocks;
        let size = 2 * blocks + 1;
        let FreeRoom {
            mut slots,
            mut places,
        } = room;
        self.enter(&mut slots[..size], &mut places[..blocks])
    }

    // Whether no key has two blocks and no block is without a row, found in room of one of two sizes: b places and
    // 2 b + 1 slots for at most b blocks.
    fn is_proper(&self) -> bool
        ensures { result ≡ proper_register (register_held self.now) }
    {
        if self.section.blocks <= 256 {
            self.try_enter(MiddleTable::new())
        } else {
            self.try_enter(FullTable::new())
        }
    }

    // The rows under a key, one behind the other, or nothing. An iterator of the blocks' places was proved, here and in
    // `enter`: entering was a seventh slower with it, and for this walk alone it is a hundred lines more.
    fn scan(&self, key: u64) -> Option<&'a [u64]>
        ensures { Shows (register_held self.now) key result }
    {
        let mut at = self.section.place + 2;
        for _ in 0..self.section.blocks {
            let block = self.block(at);
            if block.key == key {
                return Some(block.cells);
            }
            at += 2 + block.cells.len();
        }
        None
    }
}

// The registers of a slice, and where they stand, or the refusal of a slice that stands for none. Here, in `survey`, in
// `indexed` and in the report of the registers the contract says of which slice they are: the answers are of three
// types, and the refusals two.
pub fn checked(base: &[u64]) -> Result<Registers, Refusal>
    ensures { MatchResult result (λ r. (r.base.now ≡ base.now) × (refusal base.now ≡ None)) (λ e. refusal base.now ≡ Some e) }
{
    let registers = survey(base)?;
    registers.try_all()?;
    Ok(registers)
}

// The refusal of a slice that stands for no registers, if it is one.
pub fn check(base: &[u64]) -> Result<(), Refusal>
    ensures { result ≡ answered (refusal base.now) tt }
{
    checked(base)?;
    Ok(())
}

// The rows under a key of a register, one behind the other: nothing where there is no such register or key, and the
// refusal of a slice that stands for no registers.
pub fn look_up<'a>(base: &'a [u64], register: usize, key: u64) -> Result<Option<&'a [u64]>, Refusal>
    ensures { LookedUp base.now register key result }
{
    let registers = checked(base)?;
    if register >= registers.directory.count {
        return Ok(None);
    }
    Ok(registers.register(register).scan(key))
}

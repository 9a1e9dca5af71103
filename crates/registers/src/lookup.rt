// Looking keys up in indexed registers, and going over their blocks and rows.
ghost use Rattle.std.specs.Prelude.{◌≡◌, ◌<◌, [], length, Some, None, MatchResult, slice_index_or};
ghost use Rattle.registers.specs.Base.{block, register};
ghost use Rattle.registers.specs.Indexing.{Indexed, Room, Told, number_under};
ghost use Rattle.registers.specs.Refusals.{refusal};
ghost use Rattle.registers.specs.Views.{columns_in, held, indexed};

use crate::blocks::Block;
use crate::index::Index;
use crate::refusals::Refusal;
use crate::registers::Registers;
use crate::table::{Entry, probe};

impl<'a> Registers<'a> {
    // The index of the registers in room that is lent, or the refusal of registers in which a key has two blocks or a
    // block has no row.
    pub fn indexed(
        self,
        slots: &'a mut [Option<Entry>],
        places: &'a mut [usize],
    ) -> Result<Index<'a>, Refusal>
        requires { Room self.base.now self.directory slots.old places.old }
        ensures { MatchResult result (λ ix. (ix.registers.base.now ≡ self.entry.base.now) × (refusal self.entry.base.now ≡ None)) (λ e. refusal self.entry.base.now ≡ Some e) }
    {
        self.fill(slots, places)?;
        Ok(Index::over(self, slots, places))
    }
}

impl<'a> Index<'a> {
    // The index that stands in filled room.
    pub fn over(
        registers: Registers<'a>,
        slots: &'a [Option<Entry>],
        places: &'a [usize],
    ) -> Index<'a>
        requires { Indexed registers.base.now registers.directory slots.now places.now }
        ensures { result.registers.base.now ≡ registers.entry.base.now }
    {
        Index {
            registers,
            slots,
            places,
        }
    }

    // How many blocks a register has; none where there is no such register.
    pub fn blocks(&self, t: usize) -> usize
        ensures { result ≡ length (register (indexed self.now) t) }
    {
        self.registers.section(t).blocks
    }

    // How many columns a register has; none where there is no such register.
    pub fn columns(&self, t: usize) -> usize
        ensures { result ≡ columns_in self.now t }
    {
        self.registers.section(t).columns
    }

    // The number of the block under a key, counted from 0 in its register.
    pub fn find(&self, t: usize, key: u64) -> Option<usize>
        ensures value { result ≡ number_under key (register (indexed self.now) t) }
        ensures means { Told key (register (indexed self.now) t) result }
    {
        if t >= self.registers.directory.count {
            return None;
        }
        let section = self.registers.register(t).section;
        let table = &self.slots[section.table(t)];
        let entry = table[probe(table, key)]?;
        Some(entry.block as usize)
    }

    // The block of a number.
    pub fn block(&self, t: usize, number: usize) -> Block<'a>
        requires { number < length (register (indexed self.now) t) }
        ensures block { held result ≡ block (register (indexed self.now) t) number }
        ensures columns { result.columns ≡ columns_in self.now t }
    {
        let register = self.registers.register(t);
        register.block(self.places[register.section.first + number])
    }
}

impl<'a> Block<'a> {
    // The row of a number, counted from 0.
    pub fn row(&self, i: usize) -> &'a [u64]
        requires { i < self.now.rows }
        ensures { result.now ≡ slice_index_or (held self.now).rows i [] }
    {
        let columns = self.columns;
        let from = i * columns;
        let to = from + columns;
        &self.cells[from..to]
    }
}

// Going from registers to each of them, and to its blocks.
ghost use Rattle.std.specs.Prelude.{◌≡◌, ◌+◌, ◌*◌, ◌<◌, ◌≤◌, true, length, take, drop, slice_index, slice_index_or};
ghost use Rattle.registers.specs.Layout.{block_at, block_end, count_of, register_place};
ghost use Rattle.registers.specs.Refusals.{block_fits};
ghost use Rattle.registers.specs.Survey.{no_section};
ghost use Rattle.registers.specs.Views.{held};

use crate::blocks::Block;
use crate::layout::Section;
use crate::registers::{Register, Registers};

impl<'a> Registers<'a> {
    // Where the register of a number stands, counted from 0; one that is not there has no blocks and no columns.
    pub(crate) fn section(&self, t: usize) -> Section
        ensures { result ≡ slice_index_or self.now.directory.sections t no_section }
    {
        self.directory.sections.get(t).copied().unwrap_or_default()
    }

    // The register of a number.
    pub(crate) fn register(&self, t: usize) -> Register<'a>
        requires { t < self.now.directory.count }
        ensures base { result.base.now ≡ self.now.base.now }
        ensures section { result.section ≡ slice_index_or self.now.directory.sections t no_section }
    {
        Register {
            base: self.base,
            section: self.section(t),
        }
    }

    // The place behind the last register.
    pub fn end(&self) -> usize
        ensures { result ≡ register_place self.now.base.now (count_of self.now.base.now) }
    {
        self.directory.sections[self.directory.count - 1].end
    }
}

impl<'a> Register<'a> {
    // The block that begins at a place.
    pub(crate) fn block(&self, at: usize) -> Block<'a>
        requires { block_fits self.now.base.now self.now.section.columns at ≡ true }
        ensures key { result.key ≡ slice_index self.now.base.now at }
        ensures rows { result.rows ≡ slice_index self.now.base.now (at + 1) }
        ensures columns { result.columns ≡ self.now.section.columns }
        ensures block { held result ≡ block_at self.now.base.now self.now.section.columns at }
        ensures cells { result.cells.now ≡ take (slice_index self.now.base.now (at + 1) * self.now.section.columns) (drop (at + 2) self.now.base.now) }
        ensures end { at + 2 + length result.cells.now ≡ block_end self.now.base.now self.now.section.columns at }
        ensures inside { at + 2 + length result.cells.now ≤ length self.now.base.now }
    {
        let columns = self.section.columns;
        let rows = self.base[at + 1] as usize;
        let from = at + 2;
        let to = from + rows * columns;
        Block {
            key: self.base[at],
            rows,
            columns,
            cells: &self.base[from..to],
        }
    }
}

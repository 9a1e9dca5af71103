// Where the registers of a slice stand, and whether they are all there.
ghost use Rattle.std.specs.Prelude.{◌≡◌, ℕ, ◌+◌, ◌*◌, ◌^◌, ◌<◌, ◌≤◌, length, if◌then◌else◌, Some, None, MatchResult, nat_lt, slice_index};
ghost use Rattle.std.specs.List.{prefix_len};
ghost use Rattle.registers.specs.declared.refusals.Refusal.TheVariants.{Layout};
ghost use Rattle.registers.specs.Layout.{block_end, block_place};
ghost use Rattle.registers.specs.Refusals.{block_fits, blocks_fit, misfit, refused_at, register_fits};
ghost use Rattle.registers.specs.Survey.{section_at};

use crate::refusals::Refusal;
use crate::registers::Registers;
use std::ops::Range;

pub const MAX_REGISTERS: usize = 8;

pub const MAX_COLUMNS: u64 = 8;

pub const MAX_BLOCKS: u64 = 4096;

pub const MAX_ROWS: u64 = 64;

// Numbers are below this.
pub const NUMBER_LIMIT: u64 = 1 << 32;

// A register in the slice. The default is what stands where there is none, and not `None`: the definition
// `directory_of` says so, which keeps its meaning, and the room for all eight stands in an equation with it.
#[derive(Clone, Copy, Default)]
pub struct Section {
    // Where it begins, with its count of blocks and of columns, and the place behind its last block.
    pub place: usize,
    pub end: usize,
    pub blocks: usize,
    pub columns: usize,
    // How many blocks stand in the registers before it.
    pub first: usize,
}

impl Section {
    // Which slots are the table of the register, the t-th of all.
    pub(crate) fn table(&self, t: usize) -> Range<usize>
        requires { 2 * self.now.first + t + 2 * self.now.blocks + 1 < 2 ^ 64 }
        ensures start { result.start ≡ 2 * self.now.first + t }
        ensures end { result.end ≡ result.start + 2 * self.now.blocks + 1 }
    {
        let from = 2 * self.first + t;
        from..from + 2 * self.blocks + 1
    }

    // Which places are those of its blocks.
    pub(crate) fn noted(&self) -> Range<usize>
        requires { self.now.first + self.now.blocks < 2 ^ 64 }
        ensures start { result.start ≡ self.now.first }
        ensures end { result.end ≡ result.start + self.now.blocks }
    {
        self.first..self.first + self.blocks
    }
}

// All registers of a slice. Their sections stand in room for eight, since nothing is allocated here.
#[derive(Clone, Copy)]
pub struct Directory {
    // How many registers, and how many blocks in all of them.
    pub count: usize,
    pub blocks: usize,
    pub sections: [Section; MAX_REGISTERS],
}

// The bits that any of the numbers has: no number is larger.
fn all_bits(numbers: &[u64]) -> u64
    ensures { (k : ℕ) → k < length numbers.now → slice_index numbers.now k ≤ result }
{
    numbers.iter().fold(0, |bits, x| bits | *x)
}

// How many numbers stand before the first one that is too large. Mostly none is, which is seen without a branch for
// each.
fn before_large(numbers: &[u64]) -> usize
    ensures { result ≡ prefix_len (λ x. nat_lt x 4294967296) numbers.now }
{
    if all_bits(numbers) < NUMBER_LIMIT {
        return numbers.len();
    }
    numbers.iter().take_while(|x| **x < NUMBER_LIMIT).count()
}

// The place behind the block that begins at `at`, if it is all there.
fn block_end(base: &[u64], at: usize, columns: usize) -> Option<usize>
    requires { (at ≤ length base.now) × (columns ≤ 8) }
    ensures { result ≡ (if block_fits base.now columns at then Some (block_end base.now columns at) else None) }
{
    let rows = *base.get(at + 1)?;
    if rows > MAX_ROWS {
        return None;
    }
    let end = at + 2 + rows as usize * columns;
    if end > base.len() {
        return None;
    }
    Some(end)
}

// The place behind so many blocks from `start` on, if they are all there: where a block ends is known from its heading
// alone. With `try_fold` the closure would state the invariant of the loop as what it requires and once more as what
// it ensures.
fn blocks_end(base: &[u64], start: usize, blocks: usize, columns: usize) -> Option<usize>
    requires { (start ≤ length base.now) × (columns ≤ 8) }
    ensures { result ≡ (if blocks_fit base.now columns start blocks then Some (block_place base.now columns start blocks) else None) }
{
    let mut at = start;
    for _ in 0..blocks {
        at = block_end(base, at, columns)?;
    }
    Some(at)
}

// The register that begins at `at`, if it is all there and ends before the first number that is too large.
fn section_at(base: &[u64], at: usize, first: usize, large: usize) -> Option<Section>
    requires reached { at ≤ large }
    requires large { large ≡ prefix_len (λ x. nat_lt x 4294967296) base.now }
    ensures { result ≡ (if register_fits base.now at then Some (section_at base.now at first) else None) }
{
    let columns = *base.get(at + 1)?;
    let blocks = base[at];
    if blocks > MAX_BLOCKS || columns == 0 || columns > MAX_COLUMNS {
        return None;
    }
    let blocks = blocks as usize;
    let columns = columns as usize;
    let end = blocks_end(base, at + 2, blocks, columns)?;
    if end > large {
        return None;
    }
    Some(Section {
        place: at,
        end,
        blocks,
        columns,
        first,
    })
}

// The registers of a slice, and where they stand, or the refusal of a slice in which they are not all there.
pub fn survey(base: &[u64]) -> Result<Registers, Refusal>
    ensures { MatchResult result (λ r. r.base.now ≡ base.now) (λ e. refused_at Layout (misfit base.now) ≡ Some e) }
{
    let none = Refusal::Layout {
        register: MAX_REGISTERS,
    };
    let count = *base.first().ok_or(none)?;
    if count == 0 || count > MAX_REGISTERS as u64 {
        return Err(none);
    }
    let count = count as usize;
    let large = before_large(base);
    let mut sections = [Section::default(); MAX_REGISTERS];
    let mut at = 1;
    let mut blocks = 0;
    for (t, section) in sections[..count].iter_mut().enumerate() {
        *section = section_at(base, at, blocks, large).ok_or(Refusal::Layout { register: t })?;
        at = section.end;
        blocks += section.blocks;
    }
    if large < base.len() {
        return Err(none);
    }
    let directory = Directory {
        count,
        blocks,
        sections,
    };
    Ok(Registers { base, directory })
}

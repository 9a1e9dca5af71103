// Room of a size that is known beforehand, into which the keys of registers are entered.
ghost use Rattle.std.specs.Prelude.{◌≡◌, ◌≤◌, replicate};
ghost use Rattle.registers.specs.Table.{free};

use crate::filling::{MAX_PLACES, MAX_SLOTS};
use crate::table::Entry;

// Room for the index of registers, slots for the tables and places for the blocks, in which all is free yet.
pub struct FreeRoom<const SLOTS: usize, const PLACES: usize> {
    pub slots: [Option<Entry>; SLOTS],
    pub places: [usize; PLACES],
    pub ghost sizes: { (SLOTS ≤ 65544) × (PLACES ≤ 32768) },
    pub ghost slots_free: { slots ≡ replicate SLOTS free },
    pub ghost places_free: { places ≡ replicate PLACES 0 },
}

// For up to 16 blocks in all registers, for up to 512, and for as many as there may be: b places and 2 b + 8 slots for
// b blocks.
pub type SmallRoom = FreeRoom<40, 16>;

pub type MiddleRoom = FreeRoom<1032, 512>;

pub type FullRoom = FreeRoom<MAX_SLOTS, MAX_PLACES>;

// For up to 256 blocks in one register, and for as many as it may have: b places and 2 b + 1 slots for b blocks.
pub(crate) type MiddleTable = FreeRoom<513, 256>;

pub(crate) type FullTable = FreeRoom<8193, 4096>;

impl<const SLOTS: usize, const PLACES: usize> FreeRoom<SLOTS, PLACES> {
    // It is made where it is used, since to move it takes time. What it asks is a fact of constants, which no caller
    // has to test.
    #[inline(always)]
    pub fn new() -> Self
        requires { (SLOTS ≤ 65544) × (PLACES ≤ 32768) }
    {
        FreeRoom {
            slots: [None; SLOTS],
            places: [0; PLACES],
        }
    }
}

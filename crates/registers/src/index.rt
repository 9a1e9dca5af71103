// Registers of which none is refused, with an index of their keys.
ghost use Rattle.registers.specs.Indexing.{Indexed};

use crate::registers::Registers;
use crate::table::Entry;

// Made over room that was filled, and good for any number of look-ups.
#[derive(Clone, Copy)]
pub struct Index<'a> {
    pub registers: Registers<'a>,
    pub(crate) slots: &'a [Option<Entry>],
    pub(crate) places: &'a [usize],
    pub ghost sound: { ∥ Indexed registers.base.now registers.directory slots.now places.now ∥₁ },
}

// Entering the blocks of all registers into the tables of an index.
ghost use Rattle.std.specs.Prelude.{◌≡◌, ◌+◌, ◌*◌, true, length, replicate, MatchResult};
ghost use Rattle.registers.specs.declared.refusals.Refusal.TheVariants.{Blocks};
ghost use Rattle.registers.specs.Base.{proper_register};
ghost use Rattle.registers.specs.Indexing.{Entered, Indexed, Room};
ghost use Rattle.registers.specs.Refusals.{answered, misstated, refused_at};
ghost use Rattle.registers.specs.Table.{free};
ghost use Rattle.registers.specs.Views.{register_held};

use crate::layout::{MAX_BLOCKS, MAX_REGISTERS};
use crate::refusals::Refusal;
use crate::registers::{Register, Registers};
use crate::table::{Entry, probe};

// Room for any registers: a place for each block, and two slots for each block and one more for each register.
pub const MAX_PLACES: usize = MAX_REGISTERS * MAX_BLOCKS as usize;

pub const MAX_SLOTS: usize = 2 * MAX_PLACES + MAX_REGISTERS;

// Frees all slots and clears all places.
fn clear(slots: &mut [Option<Entry>], places: &mut [usize])
    ensures slots { slots.new ≡ replicate (length slots.old) free }
    ensures places { places.new ≡ replicate (length places.old) 0 }
{
    slots.fill(None);
    places.fill(0);
}

impl Register<'_> {
    // Enters all blocks of the register; false where a key has two blocks or a block has no row. It goes from block to
    // block by places; at `scan` stands why.
    pub(crate) fn enter(&self, table: &mut [Option<Entry>], places: &mut [usize]) -> bool
        requires slots { table.old ≡ replicate (2 * self.now.section.blocks + 1) free }
        requires room { length places.old ≡ self.now.section.blocks }
        ensures proper { result ≡ proper_register (register_held self.now) }
        ensures entered { result ≡ true → Entered self.now.base.now self.now.section.place table.new places.new }
    {
        let mut at = self.section.place + 2;
        for (i, place) in places.iter_mut().enumerate() {
            let block = self.block(at);
            let slot = probe(table, block.key);
            let met = table[slot];
            if block.rows == 0 || met.is_some() {
                return false;
            }
            table[slot] = Some(Entry {
                key: block.key as u32,
                block: i as u32,
            });
            *place = at;
            at += 2 + block.cells.len();
        }
        true
    }
}

impl Registers<'_> {
    // Enters all registers, or gives the refusal of registers in which a key has two blocks or a block has no row. The
    // room is then as it was. It is lent as two slices, of any lengths that are enough: a struct of both would be two,
    // one for the room that is written here and one for the room that an index reads.
    pub fn fill(&self, slots: &mut [Option<Entry>], places: &mut [usize]) -> Result<(), Refusal>
        requires { Room self.now.base.now self.now.directory slots.old places.old }
        ensures answer { result ≡ answered (refused_at Blocks (misstated self.now.base.now)) tt }
        ensures room { MatchResult result (λ _. Indexed self.now.base.now self.now.directory slots.new places.new) (λ _. (slots.new ≡ slots.old) × (places.new ≡ places.old)) }
    {
        // By number, on which a register's table and its refusal depend.
        for t in 0..self.directory.count {
            let register = self.register(t);
            let section = register.section;
            if !register.enter(&mut slots[section.table(t)], &mut places[section.noted()]) {
                clear(slots, places);
                return Err(Refusal::Blocks { register: t });
            }
        }
        Ok(())
    }
}

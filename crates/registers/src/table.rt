// A hash table of the keys of one register: open addressing, each key's way goes on slot by slot.
ghost use Rattle.std.specs.Prelude.{◌≡◌, ◌^◌, ◌<◌};
ghost use Rattle.registers.specs.Table.{Open, Probed, home_of};

// A key, and the number of its block in the register. A slot holds one, or nothing. Keys in registers are below 2^32,
// and a register has at most 4,096 blocks, so four bytes hold each, and a slot takes twelve.
#[derive(Clone, Copy)]
pub struct Entry {
    pub key: u32,
    pub block: u32,
}

// Where a key's way begins in a table of so many slots: its upper bits times an odd constant, scaled to the table.
fn home(key: u64, slots: usize) -> usize
    requires { slots < 2 ^ 32 }
    ensures { result ≡ home_of key slots }
{
    let mixed = key.wrapping_mul(0x9e37_79b9_7f4a_7c15) >> 32;
    ((mixed * slots as u64) >> 32) as usize
}

// The key's own slot or the first free one on its way. Two searches with `position`, from its home on and then before
// it, were proved, but to enter 64 blocks took a seventh longer, and with `chain` nearly half; so the loop goes round
// by hand.
pub(crate) fn probe(table: &[Option<Entry>], key: u64) -> usize
    requires { Open table.now }
    ensures { Probed table.now key result }
{
    let slots = table.len();
    let mut at = home(key, slots);
    for _ in 0..slots {
        let Some(entry) = table[at] else {
            return at;
        };
        if u64::from(entry.key) == key {
            return at;
        }
        at += 1;
        if at == slots {
            at = 0;
        }
    }
    unreachable()
}

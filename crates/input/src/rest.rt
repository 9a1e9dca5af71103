// Bytes that are too few for a number.
ghost use Rattle.std.specs.Prelude.{◌≡◌, ◌+◌, ◌<◌, ◌≤◌, [], ◌++◌, length};
ghost use Rattle.std.specs.Option.{option_to_list};
ghost use Rattle.input.specs.Numbers.{numbers_of, rest_of};

use crate::numbers::{WIDTH, number};
use std::marker::Model;

// The bytes behind the last number. They are the high `len` ones of the four of `last`, so that a byte more only shifts
// them.
#[derive(Drop)]
pub(crate) struct Rest {
    last: u32,
    len: usize,
}

impl Model for Rest {
    ghost use Rattle.std.specs.Prelude.{ℕ, ◌-◌, ◌<◌, List, drop};
    ghost use Rattle.std.specs.Int.{to_le_bytes, w32};

    ghost Value = { List ℕ };

    ghost view = { λ rest. drop (4 - rest.len) (to_le_bytes w32 rest.last) };

    ghost invariant = { λ rest. rest.len < 4 };
}

impl Rest {
    // No bytes.
    pub(crate) fn new() -> Rest
        ensures { result ≡ [] }
    {
        Rest { last: 0, len: 0 }
    }

    // How many bytes there are.
    pub(crate) fn len(&self) -> usize
        ensures len { result ≡ length self.now }
        ensures short { result < 4 }
    {
        self.len
    }

    // Adds as many bytes as a number lacks, or fewer; answers the number where they make one, and holds none then.
    pub(crate) fn add(&mut self, bytes: &[u8]) -> Option<u64>
        requires { length self.old + length bytes.now ≤ 4 }
        ensures number { option_to_list result ≡ numbers_of (self.old ++ bytes.now) }
        ensures rest { self.new ≡ rest_of (self.old ++ bytes.now) }
    {
        let begun = self.len;
        if bytes.is_empty() {
            return None;
        }
        let mut last = self.last;
        for byte in bytes {
            let [_, second, third, fourth] = last.to_le_bytes();
            last = u32::from_le_bytes([second, third, fourth, *byte]);
        }
        let len = begun + bytes.len();
        self.last = last;
        self.len = len % WIDTH;
        if len < WIDTH {
            return None;
        }
        Some(number(last.to_le_bytes()))
    }
}

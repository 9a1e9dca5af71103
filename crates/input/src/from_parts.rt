// What is made of bytes that come in parts.
ghost use Rattle.std.specs.Prelude.{ℕ, List, [], ◌++◌, IfOk, if◌then◌else◌, is_ok};

use std::alloc::{AllocError, Global};

pub trait FromParts: Drop {
    // That a value stands for these bytes, in whatever parts they came.
    ghost holds: { List ℕ → Self → Type 0 };

    // One of no bytes, with room for so many; more are taken all the same.
    fn with_byte_room(heap: Global, bytes: usize) -> Result<Self, AllocError>
        ensures { IfOk result (λ value. holds [] value) };

    // Adds a part. Where there is no memory for it, the value stands for the bytes before it.
    fn add_part(&mut self, part: &[u8]) -> Result<(), AllocError>
        ensures { (bytes : List ℕ) → holds bytes self.old → holds (if is_ok result then bytes ++ part.now else bytes) self.new };
}

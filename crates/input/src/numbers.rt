// Numbers of four bytes each, low byte first, from bytes that come in parts.
ghost use Rattle.std.specs.Prelude.{◌≡◌, ◌+◌, ◌*◌, ◌/◌, ◌<◌, ◌≤◌, [], ◌∷◌, ◌++◌, ◌⊎◌, IfOk, IsOk, OnOk, OnErr, length, take, vec_len, vec_capacity};
ghost use Rattle.input.specs.Numbers.{numbers_of, rest_of};
ghost use Rattle.input.specs.Held.{Added, Holds, Kept};

use crate::from_parts::FromParts;
use crate::rest::Rest;
use std::alloc::{AllocError, Global};

// How many bytes a number has.
pub const WIDTH: usize = 4;

// The number that four bytes stand for.
#[tactic(auto, using(crate::proofs::Parts::one_number))]
pub fn number(bytes: [u8; WIDTH]) -> u64
    ensures { numbers_of bytes ≡ result ∷ [] }
{
    u64::from(u32::from_le_bytes(bytes))
}

// Makes room for so many more. It grows as pushing one by one does, so that it comes of how many numbers there are, and
// not of the parts in which their bytes came.
fn make_room(numbers: &mut Vec<u64>, count: usize) -> Result<(), AllocError>
    ensures kept { numbers.new.items ≡ numbers.old.items }
    ensures room { OnOk result (vec_len numbers.new + count ≤ vec_capacity numbers.new) }
{
    while numbers.capacity() - numbers.len() < count {
        numbers.reserve(numbers.capacity() - numbers.len() + 1)?;
    }
    Ok(())
}

// Pushes the numbers that the bytes stand for; answers the bytes at the end that are too few for a number. They go one
// by one into room that is there, since `extend` may fail half way.
fn push_numbers<'a>(numbers: &mut Vec<u64>, bytes: &'a [u8]) -> &'a [u8]
    requires { vec_len numbers.old + length bytes.now / 4 ≤ vec_capacity numbers.old }
    ensures numbers { numbers.new.items ≡ numbers.old.items ++ numbers_of bytes.now }
    ensures room { vec_capacity numbers.new ≡ vec_capacity numbers.old }
    ensures rest { result.now ≡ rest_of bytes.now }
{
    let (chunks, rest) = bytes.as_chunks::<WIDTH>();
    for chunk in chunks {
        numbers.push_reserved(number(*chunk));
    }
    rest
}

// What the bytes so far stand for. A part may end in the middle of a number.
#[derive(Drop)]
pub struct Numbers {
    items: Vec<u64>,
    rest: Rest,
}

impl Numbers {
    // Those of no bytes, with room for so many numbers; more are taken all the same.
    pub fn with_room(heap: Global, room: usize) -> Result<Numbers, AllocError>
        ensures none { IfOk result (λ n. Holds [] n) }
        ensures room { IfOk result (λ n. room ≤ vec_capacity n.items) }
        ensures succeeds { room ≡ 0 → IsOk result }
    {
        let items = Vec::with_capacity(heap, room)?;
        let rest = Rest::new();
        Ok(Numbers { items, rest })
    }

    // The numbers that are complete.
    pub fn as_slice(&self) -> &[u64]
        ensures { result.now ≡ self.now.items.items }
    {
        self.items.as_slice()
    }

    // Adds as many bytes as a number lacks, or fewer.
    fn put(&mut self, bytes: &[u8])
        requires few { length self.old.rest + length bytes.now ≤ 4 }
        requires room { vec_len self.old.items + (length self.old.rest + length bytes.now) / 4 ≤ vec_capacity self.old.items }
        ensures added { Added bytes.now self.old self.new }
        ensures room { vec_capacity self.new.items ≡ vec_capacity self.old.items }
        ensures len { 4 * vec_len self.new.items + length self.new.rest ≡ 4 * vec_len self.old.items + length self.old.rest + length bytes.now }
        ensures short { length self.new.rest < 4 }
    {
        if let Some(number) = self.rest.add(bytes) {
            self.items.push_reserved(number);
        }
    }

    // Makes room for the numbers that a part adds, in one step. Where there is no memory for it, all is as it was.
    pub fn reserve(&mut self, part: &[u8]) -> Result<(), AllocError>
        ensures kept { Kept self.old self.new }
        ensures room { OnOk result (vec_len self.new.items + (length self.new.rest + length part.now) / 4 ≤ vec_capacity self.new.items) }
    {
        self.items.reserve((self.rest.len() + part.len()) / WIDTH)
    }

    // Completes the number that has begun, as far as the part goes; answers how many of its bytes that took.
    fn complete(&mut self, part: &[u8]) -> usize
        requires { vec_len self.old.items + (length self.old.rest + length part.now) / 4 ≤ vec_capacity self.old.items }
        ensures added { Added (take result part.now) self.old self.new }
        ensures inside { result ≤ length part.now }
        ensures behind { (length self.new.rest ≡ 0) ⊎ (result ≡ length part.now) }
        ensures room { vec_capacity self.new.items ≡ vec_capacity self.old.items }
        ensures len { 4 * vec_len self.new.items + length self.new.rest ≡ 4 * vec_len self.old.items + length self.old.rest + result }
        ensures short { length self.new.rest < 4 }
    {
        let begun = self.rest.len();
        if begun == 0 {
            return 0;
        }
        let len = part.len().min(WIDTH - begun);
        self.put(&part[..len]);
        len
    }

    // Adds a part. Where there is no memory for it, all is as it was. It stands in place at its callers, since a part may
    // be as small as a byte.
    #[inline(always)]
    pub fn add(&mut self, part: &[u8]) -> Result<(), AllocError>
        ensures added { OnOk result (Added part.now self.old self.new) }
        ensures kept { OnErr result (Kept self.old self.new) }
    {
        let count = (self.rest.len() + part.len()) / WIDTH;
        if count == 0 {
            self.put(part);
            return Ok(());
        }
        make_room(&mut self.items, count)?;
        let len = self.complete(part);
        let rest = push_numbers(&mut self.items, &part[len..]);
        self.put(rest);
        Ok(())
    }
}

impl FromParts for Numbers {
    ghost holds = { Holds };

    fn with_byte_room(heap: Global, bytes: usize) -> Result<Numbers, AllocError> {
        Numbers::with_room(heap, bytes / WIDTH)
    }

    fn add_part(&mut self, part: &[u8]) -> Result<(), AllocError> {
        self.add(part)
    }
}

#[cfg(test)]
mod tests {
    use super::*;
    use std::process::Abort;
    use std::test::Fail;

    // The numbers of two parts are as listed.
    fn expect(
        rt: &(impl Abort + AllocGlobal),
        first: &[u8],
        second: &[u8],
        listed: &[u64],
    ) -> Result<(), Fail> {
        let mut numbers = Numbers::with_room(rt.alloc(), 0)?;
        numbers.add(first)?;
        numbers.add(second)?;
        assert_eq!(rt; numbers.as_slice(), listed);
        Ok(())
    }

    #[test]
    fn room_for_a_part(rt: HostRuntime) -> Result<(), Fail> {
        let mut numbers = Numbers::with_room(rt.alloc(), 0)?;
        numbers.add(&[1])?;
        numbers.reserve(&[0, 0, 0, 2])?;
        assert_eq!(rt; numbers.as_slice(), &[][..]);
        numbers.add(&[0, 0, 0, 2])?;
        assert_eq!(rt; numbers.as_slice(), &[1][..]);
        Ok(())
    }

    #[test]
    fn fewer_than_four_bytes(rt: HostRuntime) -> Result<(), Fail> {
        expect(&rt, &[], &[], &[])?;
        expect(&rt, &[1], &[], &[])?;
        expect(&rt, &[1], &[2, 3], &[])
    }

    #[test]
    fn low_byte_first(rt: HostRuntime) -> Result<(), Fail> {
        expect(&rt, &[1, 2, 3, 4], &[], &[0x0403_0201])?;
        expect(&rt, &[255, 255, 255, 255], &[7], &[0xffff_ffff])
    }

    #[test]
    fn a_part_ends_in_a_number(rt: HostRuntime) -> Result<(), Fail> {
        expect(&rt, &[1, 0], &[0, 0, 2, 0, 0, 0, 3], &[1, 2])?;
        expect(&rt, &[1, 0, 0, 0, 9], &[0, 0, 1], &[1, 0x0100_0009])
    }
}

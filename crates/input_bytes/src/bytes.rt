// Bytes that come in parts, and beside them the numbers that they stand for.
ghost use Rattle.std.specs.Prelude.{◌≡◌, [], ◌++◌, ◌≤◌, is_ok, IfOk, if◌then◌else◌, vec_capacity};
ghost use Rattle.input.specs.Numbers.{numbers_of};
ghost use Rattle.input.specs.Held.{Holds};

use input::from_parts::FromParts;
use input::numbers::Numbers;
use std::alloc::{AllocError, Global};

// All bytes so far, and the numbers that they stand for.
#[derive(Drop)]
pub struct Input {
    bytes: Vec<u8>,
    numbers: Numbers,
    // The numbers are always those of the bytes.
    ghost agree: { Holds bytes.items numbers },
}

impl Input {
    // No bytes, with room for so many and for their numbers; more are taken all the same.
    pub fn with_room(heap: Global, room: usize) -> Result<Input, AllocError>
        ensures none { IfOk result (λ i. i.bytes.items ≡ []) }
        ensures room { IfOk result (λ i. room ≤ vec_capacity i.bytes) }
    {
        let bytes = Vec::with_capacity(heap, room)?;
        let numbers = Numbers::with_byte_room(heap, room)?;
        Ok(Input { bytes, numbers })
    }

    // All bytes.
    pub fn bytes(&self) -> &[u8]
        ensures { result.now ≡ self.now.bytes.items }
    {
        self.bytes.as_slice()
    }

    // The numbers that all bytes stand for.
    pub fn numbers(&self) -> &[u64]
        ensures { result.now ≡ numbers_of self.now.bytes.items }
    {
        self.numbers.as_slice()
    }

    // Adds a part, which may end in the middle of a number. Where there is no memory for it, all is as it was.
    pub fn add(&mut self, part: &[u8]) -> Result<(), AllocError>
        ensures { self.new.bytes.items ≡ (if is_ok result then self.old.bytes.items ++ part.now else self.old.bytes.items) }
    {
        self.bytes.reserve(part.len())?;
        self.numbers.reserve(part)?;
        self.numbers.add(part)?;
        self.bytes.extend_from_slice(part)
    }
}

// As that of `Numbers`, it hands on to its own `add`.
impl FromParts for Input {
    ghost holds = { λ bytes input. input.bytes.items ≡ bytes };

    fn with_byte_room(heap: Global, bytes: usize) -> Result<Input, AllocError> {
        Input::with_room(heap, bytes)
    }

    fn add_part(&mut self, part: &[u8]) -> Result<(), AllocError> {
        self.add(part)
    }
}

#[cfg(test)]
mod tests {
    use super::*;
    use std::process::Abort;
    use std::test::Fail;

    // Two parts are held as all their bytes, and as the numbers listed. `expect` of `input` begins in the same lines:
    // this one feeds another type and compares the bytes besides, so one for both would take that as a closure.
    fn expect(
        rt: &(impl Abort + AllocGlobal),
        first: &[u8],
        second: &[u8],
        all: &[u8],
        listed: &[u64],
    ) -> Result<(), Fail> {
        let mut input = Input::with_room(rt.alloc(), 0)?;
        input.add(first)?;
        input.add(second)?;
        assert_eq!(rt; input.bytes(), all);
        assert_eq!(rt; input.numbers(), listed);
        Ok(())
    }

    #[test]
    fn parts_as_they_are_read(rt: HostRuntime) -> Result<(), Fail> {
        let mut input = Input::with_byte_room(rt.alloc(), 8)?;
        input.add_part(&[1, 0, 0])?;
        input.add_part(&[0, 2])?;
        assert_eq!(rt; input.bytes(), &[1, 0, 0, 0, 2][..]);
        assert_eq!(rt; input.numbers(), &[1][..]);
        Ok(())
    }

    #[test]
    fn fewer_than_four_bytes(rt: HostRuntime) -> Result<(), Fail> {
        expect(&rt, &[], &[], &[], &[])?;
        expect(&rt, &[1], &[], &[1], &[])?;
        expect(&rt, &[1], &[2, 3], &[1, 2, 3], &[])
    }

    #[test]
    fn low_byte_first(rt: HostRuntime) -> Result<(), Fail> {
        expect(&rt, &[1, 2, 3, 4], &[], &[1, 2, 3, 4], &[0x0403_0201])?;
        expect(
            &rt,
            &[255, 255, 255, 255],
            &[7],
            &[255, 255, 255, 255, 7],
            &[0xffff_ffff],
        )
    }

    #[test]
    fn a_part_ends_in_a_number(rt: HostRuntime) -> Result<(), Fail> {
        expect(
            &rt,
            &[1, 0],
            &[0, 0, 2, 0, 0, 0, 3],
            &[1, 0, 0, 0, 2, 0, 0, 0, 3],
            &[1, 2],
        )?;
        expect(
            &rt,
            &[1, 0, 0, 0, 9],
            &[0, 0, 1],
            &[1, 0, 0, 0, 9, 0, 0, 1],
            &[1, 0x0100_0009],
        )
    }
}

// The numbers that bytes stand for: four bytes each, low byte first. Fewer than four at the end stand for none.
ghost use Rattle.std.specs.Prelude.{◌≡◌, min, ◌++◌, length, take, drop};
ghost use Rattle.input.specs.Numbers.{numbers_of};

use input::numbers::{WIDTH, number};

// Writes the numbers that the bytes stand for into the first places, as many as there are places for, and answers how
// many. The places behind them are as they were.
pub fn decode(bytes: &[u8], numbers: &mut [u64]) -> usize
    ensures count { result ≡ min (length (numbers_of bytes.now)) (length numbers.old) }
    ensures written { numbers.new ≡ take result (numbers_of bytes.now) ++ drop result numbers.old }
{
    let (chunks, _) = bytes.as_chunks::<WIDTH>();
    let count = chunks.len().min(numbers.len());
    // Not `numbers.iter_mut().zip(chunks)`: of what is written through that no proof learns anything.
    for (place, chunk) in chunks[..count].iter().enumerate() {
        numbers[place] = number(*chunk);
    }
    count
}

#[cfg(test)]
mod tests {
    use super::*;
    use std::process::Abort;

    // So many numbers of the bytes are written into three places that hold 9, which then hold what is listed.
    fn expect(rt: &impl Abort, bytes: &[u8], count: usize, listed: &[u64]) {
        let mut numbers = [9, 9, 9];
        assert_eq!(rt; decode(bytes, &mut numbers), count);
        assert_eq!(rt; &numbers[..], listed);
    }

    #[test]
    fn no_room(rt: HostRuntime) {
        assert_eq!(rt; decode(&[1, 0, 0, 0], &mut []), 0);
    }

    #[test]
    fn more_room_than_numbers(rt: HostRuntime) {
        expect(&rt, &[], 0, &[9, 9, 9]);
        expect(
            &rt,
            &[1, 2, 3, 4, 255, 255, 255, 255],
            2,
            &[0x0403_0201, 0xffff_ffff, 9],
        );
    }

    #[test]
    fn less_room_than_numbers(rt: HostRuntime) {
        expect(
            &rt,
            &[1, 0, 0, 0, 2, 0, 0, 0, 3, 0, 0, 0, 4, 0, 0, 0],
            3,
            &[1, 2, 3],
        );
    }

    #[test]
    fn bytes_end_in_a_number(rt: HostRuntime) {
        expect(&rt, &[1, 2, 3], 0, &[9, 9, 9]);
        expect(&rt, &[1, 0, 0, 0, 2, 0, 0], 1, &[1, 9, 9]);
    }
}

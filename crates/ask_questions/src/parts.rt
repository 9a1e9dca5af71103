// Questions in the input: each is one byte for how many signs it has, the signs, and a number for the column to be
// summed.
ghost use Rattle.std.specs.Prelude.{◌≡◌, ◌*◌, ◌<◌, ◌≤◌, length, drop};
ghost use Rattle.std.specs.Iterator.{at_most};
ghost use Rattle.questions.specs.Signs.{most_signs, sign_len};
ghost use Rattle.questions.specs.Views.{Answers};
ghost use Rattle.ask_questions.specs.Parts.{Steps, bytes_of, cut_refusal, part_refusal, part_signs, signs_of};

use input::numbers::WIDTH;
use input_bytes::numbers::decode;
use questions::layout::{MAX_SIGNS, SIGN_LEN};
use questions::reading;
use questions::refusals::Refusal;
use questions::signs::Signs;

// Room for the numbers of all signs. It is fixed, so that reading a part cannot fail for want of memory.
pub(crate) const ROOM: usize = MAX_SIGNS * SIGN_LEN;

// A question in the input: the byte that says how many signs it has, and all bytes behind that.
#[derive(Clone, Copy)]
pub(crate) struct Part<'a> {
    signs: u8,
    rest: &'a [u8],
}

// The questions that stand one behind the other in the bytes that are left.
#[derive(Drop)]
pub(crate) struct Parts<'a> {
    left: &'a [u8],
}

impl<'a> Parts<'a> {
    // Those that stand from a place on.
    pub(crate) fn from_place(bytes: &'a [u8], place: usize) -> Parts<'a>
        ensures { result.left.now ≡ drop place bytes.now }
    {
        let left = bytes.get(place..).unwrap_or_default();
        Parts { left }
    }
}

impl<'a> Iterator for Parts<'a> {
    type Item = Part<'a>;

    ghost next_gives = { λ before part after. Steps before.left.now part after.left.now };

    ghost remaining = { λ parts. at_most (length parts.left.now) };

    fn next(&mut self) -> Option<Part<'a>> {
        let (signs, rest) = self.left.split_first()?;
        let size = 1 + WIDTH + usize::from(*signs) * (SIGN_LEN * WIDTH);
        self.left = self.left.get(size..).unwrap_or_default();
        Some(Part {
            signs: *signs,
            rest,
        })
    }
}

// Reads a question of so many signs from the bytes behind its first, into room that is as long as its signs.
fn read_signs<'a>(
    widths: &'a [usize],
    bytes: &[u8],
    signs: usize,
    numbers: &'a mut [u64],
) -> Result<Signs<'a>, Refusal>
    requires few { signs ≤ most_signs }
    requires room { length numbers.old ≡ signs * sign_len }
    ensures { Answers widths.now (signs_of signs bytes.now) (cut_refusal widths.now signs bytes.now) result }
{
    let given = decode(bytes, numbers);
    let read = reading::read(widths, &numbers[..given]);
    if bytes.len() / WIDTH > signs * SIGN_LEN {
        return read;
    }
    // So many signs are all there.
    let there = given / SIGN_LEN;
    let sign = match read.err() {
        Some(Refusal::Signs { sign }) => sign,
        _ => there,
    };
    Err(Refusal::Signs { sign })
}

impl Part<'_> {
    // Reads the question, into room for the numbers of its signs.
    pub(crate) fn read<'a>(
        &self,
        widths: &'a [usize],
        room: &'a mut [u64; ROOM],
    ) -> Result<Signs<'a>, Refusal>
        ensures { Answers widths.now (part_signs (bytes_of self.now)) (part_refusal widths.now (bytes_of self.now)) result }
    {
        let signs = usize::from(self.signs);
        if signs > MAX_SIGNS {
            return Err(Refusal::Signs { sign: MAX_SIGNS });
        }
        read_signs(widths, self.rest, signs, &mut room[..signs * SIGN_LEN])
    }
}

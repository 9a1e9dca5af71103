// Reading a question from its signs: one function reads a question, one its further questions, and they call each
// other. Each sign is read once.
ghost use Rattle.std.specs.Prelude.{◌≡◌, ◌+◌, ◌≤◌, [], map, IfOk};
ghost use Rattle.std.specs.List.{range_with_len};
ghost use Rattle.questions.specs.Meaning.{Means, refusal_in};
ghost use Rattle.questions.specs.Questions.{first_again};
ghost use Rattle.questions.specs.Reading.{Noted, outcome, passed};
ghost use Rattle.questions.specs.Refusals.{signs_refusal};
ghost use Rattle.questions.specs.Signs.{Short, There, most_signs, reads, register_at};
ghost use Rattle.questions.specs.Views.{Answers};

use crate::layout::{MAX_SIGNS, SIGN_LEN, Sign};
use crate::outline::Outline;
use crate::refusals::Refusal;
use crate::signs::Signs;

// At most eight signs, and the columns of the registers over which they are read.
#[derive(Clone, Copy)]
struct Source<'a> {
    widths: &'a [usize],
    signs: &'a [u64],
    ghost short: { Short signs.now },
}

impl<'a> Source<'a> {
    // Reads the question that begins at a sign, notes where it and the questions in it end, and answers the sign behind
    // it; or the refusal of the first sign that cannot be read.
    #[cycle(questions)]
    fn question(&self, sign: usize, ends: &mut [usize; MAX_SIGNS]) -> Result<usize, Refusal>
        requires { sign ≤ most_signs }
        ensures answer { result ≡ outcome (reads self.now.widths.now self.now.signs.now sign) }
        ensures noted { IfOk result (λ e. Noted self.now.widths.now self.now.signs.now sign e ends.old ends.new) }
    {
        let here = Sign::read(self.widths, self.signs, sign).ok_or(Refusal::Signs { sign })?;
        let left = here.further();

        // A sign without further questions needs no call.
        let end = if left == 0 {
            sign + 1
        } else {
            self.further(left, sign + 1, ends)?
        };
        ends[sign] = end;
        Ok(end)
    }

    // Reads so many further questions, of which the first begins at a sign, one behind the other.
    #[cycle(questions)]
    fn further(
        &self,
        left: usize,
        sign: usize,
        ends: &mut [usize; MAX_SIGNS],
    ) -> Result<usize, Refusal>
        requires { sign ≤ most_signs }
        ensures answer { result ≡ passed (λ s. outcome (reads self.now.widths.now self.now.signs.now s)) left sign }
        ensures noted { IfOk result (λ e. Noted self.now.widths.now self.now.signs.now sign e ends.old ends.new) }
    {
        if left == 0 {
            return Ok(sign);
        }
        let next = self.question(sign, ends)?;
        self.further(left - 1, next, ends)
    }
}

// The register of the first of so many signs that goes where an earlier one went: the first of them cannot.
fn gone_twice(numbers: &[u64], count: usize) -> Option<usize>
    requires { There numbers.now count }
    ensures { result ≡ first_again [] (map (register_at numbers.now) (range_with_len 0 count)) }
{
    (1..count).find_map(
        |sign|
            requires { There numbers.now (sign + 1) }
        {
            let here = Sign { numbers, sign };
            here.again()
        },
    )
}

// Reads the question that all signs stand for, over registers of so many columns each, or answers its refusal. It
// is inlined, so that a caller that knows its signs pays for no more than it asks of them.
#[inline]
pub fn read<'a>(widths: &'a [usize], signs: &'a [u64]) -> Result<Signs<'a>, Refusal>
    ensures value { Answers widths.now signs.now (signs_refusal widths.now signs.now) result }
    ensures means { Means widths.now signs.now (refusal_in result) }
{
    if signs.len() > MAX_SIGNS * SIGN_LEN {
        return Err(Refusal::Signs { sign: MAX_SIGNS });
    }
    let source = Source { widths, signs };
    let mut ends = [0; MAX_SIGNS];
    let count = source.question(0, &mut ends)?;
    if count * SIGN_LEN != signs.len() {
        return Err(Refusal::Signs { sign: count });
    }
    if let Some(register) = gone_twice(signs, count) {
        return Err(Refusal::Twice { register });
    }
    Ok(Signs::over(widths, signs, Outline { count, ends }))
}

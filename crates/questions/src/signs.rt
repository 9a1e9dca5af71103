// The signs of a question that is not refused, and the questions that begin at them.
ghost use Rattle.std.specs.Prelude.{◌≡◌, ◌<◌, false, is_some};
ghost use Rattle.questions.specs.Reading.{outline_of};
ghost use Rattle.questions.specs.Refusals.{signs_refusal};

use crate::outline::Outline;

// Read over registers of so many columns each; `question` is what they ask.
#[derive(Clone, Copy)]
pub struct Signs<'a> {
    pub widths: &'a [usize],
    pub numbers: &'a [u64],
    pub outline: Outline,
    pub ghost accepted: { is_some (signs_refusal widths.now numbers.now) ≡ false },
    pub ghost outlined: { outline ≡ outline_of widths.now numbers.now },
}

// The question that begins at a sign.
#[derive(Clone, Copy)]
pub struct Question<'a> {
    pub signs: &'a Signs<'a>,
    pub sign: usize,
    pub ghost there: { sign < signs.now.outline.count },
}

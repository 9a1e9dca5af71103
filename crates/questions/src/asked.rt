// What is asked at a sign: a register, tests, further questions.
ghost use Rattle.std.specs.Prelude.{◌≡◌, ◌<◌, ◌≤◌, [], length, Ok, slice_index, slice_index_or};
ghost use Rattle.questions.specs.Questions.{ask, columns_in, further_of, no_more, questions_in, register_of, tests_of};
ghost use Rattle.questions.specs.Reading.{outline_of};
ghost use Rattle.questions.specs.Refusals.{answered, signs_refusal};
ghost use Rattle.questions.specs.Tests.{all_pass};
ghost use Rattle.questions.specs.Views.{asked_at, signs_in, width_at};

use crate::kinds::Test;
use crate::layout::Sign;
use crate::outline::Outline;
use crate::signs::{Question, Signs};

impl<'a> Signs<'a> {
    // The signs that were read.
    pub fn over(widths: &'a [usize], numbers: &'a [u64], outline: Outline) -> Signs<'a>
        requires { Ok outline ≡ answered (signs_refusal widths.now numbers.now) (outline_of widths.now numbers.now) }
        ensures widths { result.widths.now ≡ widths.now }
        ensures numbers { result.numbers.now ≡ numbers.now }
        ensures outline { result.outline ≡ outline }
    {
        Signs {
            widths,
            numbers,
            outline,
        }
    }

    // The question that begins at a sign.
    pub fn at(&self, sign: usize) -> Question<'_>
        requires { sign < signs_in self.now }
        ensures signs { result.signs.now ≡ self.now }
        ensures sign { result.sign ≡ sign }
    {
        Question { signs: self, sign }
    }

    // The question that all signs stand for: it begins at the first of them.
    pub fn question(&self) -> Question<'_>
        ensures signs { result.signs.now ≡ self.now }
        ensures first { result.sign ≡ 0 }
    {
        self.at(0)
    }
}

#[tactic(auto, using(crate::proofs::Asking::laws))]
impl<'a> Question<'a> {
    // The numbers of that sign.
    fn numbers(&self) -> Sign<'a>
        ensures numbers { result.numbers.now ≡ self.now.signs.now.numbers.now }
        ensures sign { result.sign ≡ self.now.sign }
    {
        Sign {
            numbers: self.signs.numbers,
            sign: self.sign,
        }
    }

    // Its register.
    pub fn register(&self) -> usize
        ensures value { result ≡ register_of (asked_at self.now) }
        ensures there { result < length self.now.signs.now.widths.now }
    {
        self.numbers().register()
    }

    // How many tests it has.
    pub fn tests(&self) -> usize
        ensures { result ≡ length (tests_of (asked_at self.now)) }
    {
        self.numbers().tests()
    }

    // One of its tests.
    pub fn test(&self, i: usize) -> Test
        requires { i < length (tests_of (asked_at self.now)) }
        ensures value { (d : Test) → result ≡ slice_index_or (tests_of (asked_at self.now)) i d }
        ensures within { result.column < width_at self.now }
    {
        self.numbers().known_test(i)
    }

    // Whether a row of its register passes all its tests.
    pub fn passes(&self, row: &[u64]) -> bool
        requires { width_at self.now ≤ length row.now }
        ensures { result ≡ all_pass (tests_of (asked_at self.now)) row.now }
    {
        (0..self.tests()).all(|i| self.test(i).passes(row))
    }

    // How many further questions it has.
    pub fn further(&self) -> usize
        ensures { result ≡ length (questions_in (further_of (asked_at self.now))) }
    {
        self.numbers().further()
    }

    // The column in which the keys of a further question stand.
    pub fn column(&self, i: usize) -> usize
        requires { i < length (questions_in (further_of (asked_at self.now))) }
        ensures value { result ≡ slice_index (columns_in (further_of (asked_at self.now))) i }
        ensures within { result < width_at self.now }
    {
        self.numbers().column(i)
    }

    // A further question: each begins where the one before it ends. The walk is a loop, since the closure of a fold
    // would need the bound of each end besides.
    pub fn begin(&self, i: usize) -> Question<'a>
        requires { i < length (questions_in (further_of (asked_at self.now))) }
        ensures signs { result.signs.now ≡ self.now.signs.now }
        ensures question { asked_at result ≡ slice_index_or (questions_in (further_of (asked_at self.now))) i (ask 0 [] no_more) }
        ensures behind { self.now.sign < result.sign }
    {
        let mut sign = self.sign + 1;
        for _i in 0..i {
            sign = self.signs.outline.ends[sign];
        }
        Question {
            signs: self.signs,
            sign,
        }
    }
}

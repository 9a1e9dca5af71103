// A sign of a question, whether it can be read, and whether its register comes again.
ghost use Rattle.std.specs.Prelude.{◌≡◌, ◌+◌, ◌*◌, ◌<◌, ◌≤◌, false, true, MatchOption, MatchResult};
ghost use Rattle.questions.specs.Reading.{again_at};
ghost use Rattle.questions.specs.Signs.{There, column_fits, each_below, further_count, most_further, most_tests, number_at, parts_fit, register_at, sign_fits, sign_len, test_at, test_count, test_fits};

use crate::kinds::{Kind, Test, UnknownKind};

// How many numbers a sign has.
pub const SIGN_LEN: usize = 19;

// How many signs a question has at most, and how many tests and further questions a sign.
pub const MAX_SIGNS: usize = 8;

pub const MAX_TESTS: u64 = 4;

pub const MAX_FURTHER: u64 = 4;

// Where the numbers of a sign stand: the register, how many tests, the first of them, how many further questions, the
// first of their columns.
const REGISTER: usize = 0;

const TESTS: usize = 1;

const FIRST_TEST: usize = 2;

const TEST_LEN: usize = 3;

const FURTHER: usize = 14;

const FIRST_COLUMN: usize = 15;

// A sign that is all there, and the numbers among which it stands.
#[derive(Clone, Copy)]
pub(crate) struct Sign<'a> {
    pub(crate) numbers: &'a [u64],
    pub(crate) sign: usize,
    ghost there: { There numbers.now (sign + 1) },
}

impl<'a> Sign<'a> {
    // The sign, if it is all there.
    pub(crate) fn at(numbers: &'a [u64], sign: usize) -> Option<Sign<'a>>
        ensures { MatchOption result (There numbers.now (sign + 1) → ⊥) (λ s. (s.numbers.now ≡ numbers.now) × (s.sign ≡ sign)) }
    {
        if sign < numbers.len() / SIGN_LEN {
            Some(Sign { numbers, sign })
        } else {
            None
        }
    }

    // The sign, if it can be read over registers of so many columns each.
    #[tactic(auto, unfolding(crate::specs::Signs::sign_fits))]
    pub(crate) fn read(widths: &[usize], numbers: &'a [u64], sign: usize) -> Option<Sign<'a>>
        ensures { MatchOption result (sign_fits widths.now numbers.now sign ≡ false) (λ s. (sign_fits widths.now numbers.now sign ≡ true) × (s.numbers.now ≡ numbers.now) × (s.sign ≡ sign)) }
    {
        let here = Sign::at(numbers, sign)?;
        let columns = *widths.get(here.register())?;
        here.parts_fit(columns).then_some(here)
    }

    // One of its numbers.
    fn number(&self, i: usize) -> u64
        requires { i < sign_len }
        ensures { result ≡ number_at self.now.numbers.now self.now.sign i }
    {
        self.numbers[self.sign * SIGN_LEN + i]
    }

    // The register that it names.
    pub(crate) fn register(&self) -> usize
        ensures { result ≡ register_at self.now.numbers.now self.now.sign }
    {
        self.number(REGISTER) as usize
    }

    // How many tests it has.
    pub(crate) fn tests(&self) -> usize
        ensures { result ≡ test_count self.now.numbers.now self.now.sign }
    {
        self.number(TESTS) as usize
    }

    // One of its tests, if that has a kind.
    pub(crate) fn test(&self, i: usize) -> Result<Test, UnknownKind>
        requires { i < most_tests }
        ensures { MatchResult result (λ t. (number_at self.now.numbers.now self.now.sign (3 + i * 3) ≤ 3) × (t ≡ test_at self.now.numbers.now self.now.sign i)) (λ e. 3 < number_at self.now.numbers.now self.now.sign (3 + i * 3)) }
    {
        let at = FIRST_TEST + i * TEST_LEN;
        let column = self.number(at) as usize;
        let kind = Kind::try_from(self.number(at + 1))?;
        let number = self.number(at + 2);
        Ok(Test {
            column,
            kind,
            number,
        })
    }

    // One of its tests, for a sign that was read, where each has a kind: a number of none counts as the last kind, which
    // costs less than a case of its own that cannot come.
    pub(crate) fn known_test(&self, i: usize) -> Test
        requires { i < most_tests }
        ensures { result ≡ test_at self.now.numbers.now self.now.sign i }
    {
        let at = FIRST_TEST + i * TEST_LEN;
        Test {
            column: self.number(at) as usize,
            kind: Kind::try_from(self.number(at + 1)).unwrap_or(Kind::AtMost),
            number: self.number(at + 2),
        }
    }

    // How many further questions it has.
    pub(crate) fn further(&self) -> usize
        ensures { result ≡ further_count self.now.numbers.now self.now.sign }
    {
        self.number(FURTHER) as usize
    }

    // The column of one of them.
    pub(crate) fn column(&self, i: usize) -> usize
        requires { i < most_further }
        ensures { result ≡ number_at self.now.numbers.now self.now.sign (15 + i) }
    {
        self.number(FIRST_COLUMN + i) as usize
    }

    // An earlier sign, or this one.
    fn earlier(&self, sign: usize) -> Sign<'a>
        requires { sign ≤ self.now.sign }
        ensures numbers { result.numbers.now ≡ self.now.numbers.now }
        ensures sign { result.sign ≡ sign }
    {
        Sign {
            numbers: self.numbers,
            sign,
        }
    }

    // Its register, if an earlier sign goes there.
    pub(crate) fn again(&self) -> Option<usize>
        ensures { result ≡ again_at self.now.numbers.now self.now.sign }
    {
        let register = self.register();
        (0..self.sign)
            .any(|sign| self.earlier(sign).register() == register)
            .then_some(register)
    }

    // Whether one of its tests fits a register of so many columns.
    fn test_fits(&self, i: usize, columns: usize) -> bool
        requires { i < most_tests }
        ensures { result ≡ test_fits columns self.now.numbers.now self.now.sign i }
    {
        self.test(i).is_ok_and(|test| test.column < columns)
    }

    // Whether all its tests do.
    fn tests_fit(&self, columns: usize) -> bool
        requires { test_count self.now.numbers.now self.now.sign ≤ most_tests }
        ensures { result ≡ each_below (test_fits columns self.now.numbers.now self.now.sign) (test_count self.now.numbers.now self.now.sign) }
    {
        (0..self.tests()).all(|i| self.test_fits(i, columns))
    }

    // Whether the columns of all its further questions do.
    fn columns_fit(&self, columns: usize) -> bool
        requires { further_count self.now.numbers.now self.now.sign ≤ most_further }
        ensures { result ≡ each_below (column_fits columns self.now.numbers.now self.now.sign) (further_count self.now.numbers.now self.now.sign) }
    {
        (0..self.further()).all(|i| self.column(i) < columns)
    }

    // Whether all its parts do.
    #[tactic(auto, unfolding(crate::specs::Signs::parts_fit))]
    fn parts_fit(&self, columns: usize) -> bool
        ensures { result ≡ parts_fit columns self.now.numbers.now self.now.sign }
    {
        self.number(TESTS) <= MAX_TESTS
            && self.number(FURTHER) <= MAX_FURTHER
            && self.tests_fit(columns)
            && self.columns_fit(columns)
    }
}

// A question said back in words.
ghost use Rattle.std.specs.Prelude.{◌≡◌, ◌==◌, [], cond, codes, Some};
ghost use Rattle.questions.specs.Views.{asked_at};
ghost use Rattle.ask_questions.specs.Words.{question_words};

use questions::signs::Question;
use std::fmt;

// What stands between two parts of a question; nothing before the first.
fn separator(parts: usize) -> &'static str
    ensures { result.now ≡ cond (parts == 0) [] (codes ", ") }
{
    if parts == 0 { "" } else { ", " }
}

// A question to be said. It is a type apart, since the words are those of this program.
#[derive(Clone, Copy)]
pub(crate) struct Words<'a> {
    pub(crate) question: Question<'a>,
}

// Its register, its tests, and its further questions in brackets. The loops count, since an iterator of tests or of
// further questions would be a type of its own that counts in their place: no function may answer an `impl Iterator`.
impl fmt::Display for Words<'_> {
    ghost output = { λ words. Some (question_words (asked_at words.question)) };

    fn fmt<W: fmt::Write>(&self, f: &mut fmt::Formatter<W>) -> fmt::Result {
        let question = self.question;
        write!(f, "register {}: ", question.register())?;
        let tests = question.tests();
        let further = question.further();
        if tests == 0 && further == 0 {
            return f.write_str("any row");
        }
        for i in 0..tests {
            write!(f, "{}{}", separator(i), question.test(i))?;
        }
        for i in 0..further {
            let between = separator(tests + i);
            let column = question.column(i);
            write!(f, "{between}column {column} is a key of (")?;
            let words = Words {
                question: question.begin(i),
            };
            words.fmt(f)?;
            f.write_str(")")?;
        }
        Ok(())
    }
}

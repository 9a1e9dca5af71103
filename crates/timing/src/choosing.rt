// Whether a benchmark tells answers or figures.
ghost use Rattle.std.specs.Prelude.{◌≡◌, ◌⊎◌, true, false, None, Ok, OnOk, IfSome, codes, is_ok};

use anyhow::anyhow;
use std::env;

// Tells the answers where no word is given, and the figures where the one word is `figures`; other words are an error.
fn choose<A: FnOnce() -> anyhow::Result<()>, F: FnOnce() -> anyhow::Result<()>>(
    program: &str,
    word: Option<&str>,
    more: bool,
    answers: A,
    figures: F,
) -> anyhow::Result<()>
    requires calls_answers { A.IsAlwaysCallable answers }
    requires calls_figures { F.IsAlwaysCallable figures }
    ensures none { word.entry ≡ None → A.post answers result }
    ensures one { IfSome word.entry (λ w. w.now ≡ codes "figures" → more ≡ false → F.post figures result) }
    ensures other { IfSome word.entry (λ w. (w.now ≡ codes "figures" → more ≡ true) → is_ok result ≡ false) }
    ensures ok { OnOk result (A.post answers (Ok tt) ⊎ F.post figures (Ok tt)) }
{
    match word {
        None => answers(),
        Some(word) if word == "figures" && !more => figures(),
        Some(_) => Err(anyhow!("usage: {program} [figures]")),
    }
}

// The same of the words behind the program's name.
pub fn answers_or_figures<A: FnOnce() -> anyhow::Result<()>, F: FnOnce() -> anyhow::Result<()>>(
    rt: &HostRuntime,
    program: &str,
    answers: A,
    figures: F,
) -> anyhow::Result<()>
    requires calls_answers { A.IsAlwaysCallable answers }
    requires calls_figures { F.IsAlwaysCallable figures }
    ensures { OnOk result (A.post answers (Ok tt) ⊎ F.post figures (Ok tt)) }
{
    let mut words = env::args(rt)?;
    let _program = words.next();
    let word = words.next();
    let word = word.as_ref().map(|word| word.as_str());
    choose(program, word, words.next().is_some(), answers, figures)
}

// What the program prints of registers and questions, line by line.
use crate::parts::{Part, Parts, ROOM};
use crate::words::Words;
use input::numbers::WIDTH;
use questions::signs::Signs;
use questions::widths;
use std::alloc::Global;
use std::io;
use std::io::{BufWriter, Write};
use summaries::summary::summarize;

// Says the question of all signs on a line. It is a function of its own, so that question and signs have one lifetime.
fn say<W: Write>(out: &mut W, signs: &Signs) -> io::Result<()> {
    let question = signs.question();
    writeln!(out, "{}", Words { question })
}

// Tells of a question in the input: its words, or its refusal.
fn tell_part<W: Write>(out: &mut W, widths: &[usize], part: Part) -> io::Result<()> {
    let mut room = [0; ROOM];
    match part.read(widths, &mut room) {
        Ok(signs) => say(out, &signs),
        Err(refusal) => writeln!(out, "{refusal}"),
    }
}

// Writes a line for each register and for each question behind them, or the one line of the registers' refusal. `ask`
// tells the same without the questions. A function for both would be lent the rest as a closure over the writer, which
// `ask` has no use for.
pub(crate) fn tell<W: Write + Drop>(
    alloc: Global,
    out: W,
    base: &[u64],
    bytes: &[u8],
) -> io::Result<()> {
    let mut out = BufWriter::new(alloc, out)?;
    match summarize(base) {
        Ok(report) => {
            write!(out, "{report}")?;
            let registers = report.registers;
            let widths = widths(&registers.directory);
            let widths = &widths[..registers.directory.count];
            for part in Parts::from_place(bytes, registers.end().saturating_mul(WIDTH)) {
                tell_part(&mut out, widths, part)?;
            }
        }
        Err(refusal) => writeln!(out, "{refusal}")?,
    }
    out.flush()
}

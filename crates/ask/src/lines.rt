// What the program prints of registers, line by line.
use std::alloc::Global;
use std::io;
use std::io::{BufWriter, Write};
use summaries::summary::summarize;

// Writes a line for each register, or the one line of their refusal.
pub(crate) fn tell<W: Write + Drop>(alloc: Global, out: W, base: &[u64]) -> io::Result<()> {
    let mut out = BufWriter::new(alloc, out)?;
    match summarize(base) {
        Ok(report) => write!(out, "{report}")?,
        Err(refusal) => writeln!(out, "{refusal}")?,
    }
    out.flush()
}

// Reading questions from their signs.
ghost use Rattle.std.specs.Prelude.{◌<◌};
ghost use Rattle.std.specs.Slice.Iter.{chunks_size};

use questions::outline::Outline;
use questions::reading::read;
use std::alloc::{AllocError, Global};
use std::io;
use std::slice::Chunks;
use timing::{RUNS, Timed};

// How often a question is made and read in a run.
pub const COPIES: u32 = 256;

// The columns of the registers to which the questions go.
const WIDTHS: [usize; 8] = [8; 8];

// What questions are like that are made up: how many further questions each sign has, and where its question ends.
#[derive(Clone, Copy)]
pub struct Form {
    pub name: &'static str,
    further: &'static [usize],
    outline: Outline,
}

// The questions that are read.
pub const FORMS: [Form; 3] = [
    Form {
        name: "a chain of 8 signs",
        further: &[1, 1, 1, 1, 1, 1, 1, 0],
        outline: Outline {
            count: 8,
            ends: [8; 8],
        },
    },
    Form {
        name: "a tree of 8 signs",
        further: &[3, 2, 0, 0, 0, 1, 1, 0],
        outline: Outline {
            count: 8,
            ends: [8, 4, 3, 4, 5, 8, 8, 8],
        },
    },
    Form {
        name: "one sign",
        further: &[0],
        outline: Outline {
            count: 1,
            ends: [1, 0, 0, 0, 0, 0, 0, 0],
        },
    },
];

impl Form {
    // All copies of a question, one behind the other. Each sign goes to the register of its own number, and has four
    // tests, one of each kind, against the number of the copy.
    pub(crate) fn make(self, heap: Global) -> Result<Vec<u64>, AllocError> {
        let mut signs = Vec::new(heap);
        for copy in 0..COPIES {
            for (sign, further) in self.further.iter().enumerate() {
                signs.extend_from_slice(&[sign as u64, 4])?;
                for test in 0..4 {
                    signs.extend_from_slice(&[test, test, u64::from(copy)])?;
                }
                signs.extend_from_slice(&[*further as u64, 0, 1, 2, 3])?;
            }
        }
        Ok(signs)
    }

    // Whether signs are read as a question of this form.
    fn is_read(self, signs: &[u64]) -> bool {
        read(&WIDTHS, signs).is_ok_and(|read| read.outline == self.outline)
    }

    // How many copies are read as questions of this form.
    pub(crate) fn count_right(self, signs: &[u64]) -> usize {
        copies(signs).filter(|copy| self.is_read(copy)).count()
    }
}

// How many signs a question has, where it is read.
fn sign_count(signs: &[u64]) -> Option<u64> {
    Some(read(&WIDTHS, signs).ok()?.outline.count as u64)
}

// The signs of each copy.
fn copies(signs: &[u64]) -> Chunks<'_, u64>
    ensures { 0 < chunks_size result }
{
    signs.chunks((signs.len() / COPIES as usize).max(1))
}

// The time to read all copies, and their signs.
pub(crate) fn time_read(rt: &HostRuntime, signs: &[u64]) -> io::Result<Timed> {
    Timed::of_runs(rt, RUNS, || copies(signs).filter_map(sign_count).sum())
}

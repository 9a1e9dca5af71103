// Registers that are made up, and keys to look up in them.
use std::alloc::{AllocError, Global};

pub const REGISTERS: u32 = 8;

// How many look-ups are timed at once.
pub const QUESTIONS: u32 = 16384;

// Numbers from here on give the keys that no register has.
const OTHERS: u32 = 1 << 31;

// A number scattered over 32 bits; different numbers give different ones.
fn scattered(n: u32) -> u32 {
    let once = (n ^ (n >> 16)).wrapping_mul(0x85eb_ca6b);
    let twice = (once ^ (once >> 13)).wrapping_mul(0xc2b2_ae35);
    twice ^ (twice >> 16)
}

// How many rows the blocks have.
#[derive(Clone, Copy)]
pub enum Rows {
    // One, but every ninth block 2 to 4.
    Few,
    // As many as may be.
    Most,
}

impl Rows {
    // How many rows the block of a number has.
    fn of(self, number: u32) -> u64 {
        match self {
            Rows::Few if number % 9 == 4 => 2 + u64::from(number % 3),
            Rows::Few => 1,
            Rows::Most => 64,
        }
    }
}

// What registers are like that are made up, and how often they are made, with other keys each time.
#[derive(Clone, Copy)]
pub struct Shape {
    pub name: &'static str,
    pub blocks: u32,
    pub columns: u64,
    pub rows: Rows,
    pub copies: u32,
}

impl Shape {
    // Adds a register whose keys come from the numbers from `first` on.
    fn add_register(self, base: &mut Vec<u64>, first: u32) -> Result<(), AllocError> {
        base.extend_from_slice(&[u64::from(self.blocks), self.columns])?;
        for number in 0..self.blocks {
            let rows = self.rows.of(number);
            let key = u64::from(scattered(first.wrapping_add(number)));
            base.extend_from_slice(&[key, rows])?;
            for _row in 0..rows {
                for column in 0..self.columns {
                    base.push((key ^ column) >> 1)?;
                }
            }
        }
        Ok(())
    }

    // All copies of the registers, one behind the other. Those of the first copy have the keys from the numbers 0, 1,
    // ..
    pub(crate) fn make(self, heap: Global) -> Result<Vec<u64>, AllocError> {
        let mut base = Vec::new(heap);
        let mut first = 0u32;
        for _copy in 0..self.copies {
            base.push(u64::from(REGISTERS))?;
            for _register in 0..REGISTERS {
                self.add_register(&mut base, first)?;
                first = first.wrapping_add(self.blocks);
            }
        }
        Ok(base)
    }

    // How many keys the registers of a copy have.
    fn key_count(self) -> u32 {
        self.blocks.saturating_mul(REGISTERS)
    }

    // The look-up of the key that comes from a number counted on from `first`, in the register of the first copy that
    // the number belongs to.
    fn question(self, number: u32, first: u32) -> Question {
        Question {
            register: (number / self.blocks.max(1)) as usize,
            key: u64::from(scattered(first.wrapping_add(number))),
        }
    }
}

// A key to look up in a register.
#[derive(Clone, Copy)]
pub struct Question {
    pub register: usize,
    pub key: u64,
}

// The keys that are looked up: some that are there, and as many that are not.
#[derive(Clone, Copy)]
pub struct Questions<'a> {
    pub present: &'a [Question],
    pub absent: &'a [Question],
}

// Such keys as they are made up.
#[derive(Drop)]
pub struct Samples {
    present: Vec<Question>,
    absent: Vec<Question>,
}

impl Samples {
    // Look-ups of the keys that come from so many numbers. Those from 0 on give keys that the registers have, and those
    // from `OTHERS` on give others.
    fn of_numbers<F: Fn(u32) -> u32>(
        heap: Global,
        shape: Shape,
        count: u32,
        number: F,
    ) -> Result<Samples, AllocError>
        requires { F.IsAlwaysCallable number }
    {
        let of = |first: u32| {
            (0..count)
                .map(|i| shape.question(number(i), first))
                .collect(heap)
        };
        Ok(Samples {
            present: of(0)?,
            absent: of(OTHERS)?,
        })
    }

    // A look-up for each key of the registers, and for as many others, in the order of the numbers they come from.
    pub(crate) fn each(heap: Global, shape: Shape) -> Result<Samples, AllocError> {
        Samples::of_numbers(heap, shape, shape.key_count(), |i| i)
    }

    // Look-ups of keys of the registers in no order, and of others.
    pub(crate) fn mixed(heap: Global, shape: Shape) -> Result<Samples, AllocError> {
        let all = shape.key_count().max(1);
        Samples::of_numbers(heap, shape, QUESTIONS, |i| scattered(i) % all)
    }

    // The keys.
    pub(crate) fn questions(&self) -> Questions<'_> {
        Questions {
            present: self.present.as_slice(),
            absent: self.absent.as_slice(),
        }
    }
}

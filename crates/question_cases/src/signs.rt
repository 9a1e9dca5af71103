// Signs to try the reading of questions on.
use questions::layout::SIGN_LEN;
use std::alloc::{AllocError, Global};

// Where the count of further questions stands in a sign.
const FURTHER: usize = 14;

// Adds a sign with these tests, and with further questions at these columns; what is not used holds the last number.
pub(crate) fn add_sign(
    signs: &mut Vec<u64>,
    register: u64,
    tests: &[[u64; 3]],
    columns: &[u64],
    unused: u64,
) -> Result<(), AllocError> {
    let start = signs.len();
    signs.extend_from_slice(&[register, tests.len() as u64])?;
    for test in tests {
        signs.extend_from_slice(test)?;
    }
    signs.resize(start.wrapping_add(FURTHER), unused)?;
    signs.push(columns.len() as u64)?;
    signs.extend_from_slice(columns)?;
    signs.resize(start.wrapping_add(SIGN_LEN), unused)
}

// A sluice whose polder has a level of at most 3 and a board at work: 57 numbers.
pub(crate) fn drained(heap: Global, unused: u64) -> Result<Vec<u64>, AllocError> {
    let mut signs = Vec::new(heap);
    add_sign(&mut signs, 0, &[], &[0], unused)?;
    add_sign(&mut signs, 1, &[[0, 3, 3]], &[1], unused)?;
    add_sign(&mut signs, 2, &[[0, 0, 1]], &[], unused)?;
    Ok(signs)
}

// A sluice at least 6 wide.
pub(crate) fn wide(heap: Global, unused: u64) -> Result<Vec<u64>, AllocError> {
    let mut signs = Vec::new(heap);
    add_sign(&mut signs, 0, &[[1, 2, 6]], &[], unused)?;
    Ok(signs)
}

// Registers, and one further question of each, but none of the last.
pub(crate) fn chained(registers: [u64; 8]) -> [(u64, usize); 8] {
    let mut pairs = registers.map(|register| (register, 1));
    pairs[7].1 = 0;
    pairs
}

// Signs without tests: for each its register and how many further questions it has, at the columns 0, 1 and so on.
pub(crate) fn branching(heap: Global, pairs: &[(u64, usize)]) -> Result<Vec<u64>, AllocError> {
    let mut signs = Vec::new(heap);
    let columns = [0, 1, 2, 3];
    for pair in pairs {
        let (register, further) = *pair;
        add_sign(&mut signs, register, &[], &columns[..further.min(4)], 0)?;
    }
    Ok(signs)
}

// Signs that go to the registers of `WIDENING` from the first on, and from register 7 on to register 0: each with four
// tests and so many further questions, all at the last column of its register.
pub(crate) fn full(heap: Global, first: usize, further: &[usize]) -> Result<Vec<u64>, AllocError> {
    let mut signs = Vec::new(heap);
    for (sign, count) in further.iter().enumerate() {
        let last = (first.wrapping_add(sign) % 8) as u64;
        let columns = [last; 4];
        let count = (*count).min(4);
        let tests = [[last, 3, u64::MAX]; 4];
        add_sign(&mut signs, last, &tests, &columns[..count], 0)?;
    }
    Ok(signs)
}

// Registers to try the checks, the look-ups and the index on.
use std::alloc::{AllocError, Global};
use std::iter::repeat_n;

// Keys whose ways all begin at the last slot of a table for twelve keys.
pub const COLLIDING: [u64; 12] = [21, 55, 76, 110, 131, 144, 165, 199, 220, 254, 288, 309];

// Adds a register whose blocks have the keys 0, 1, 2 and so on, so many rows each, and their key in every cell.
pub(crate) fn add_plain(
    base: &mut Vec<u64>,
    blocks: u64,
    columns: u64,
    rows: u64,
) -> Result<(), AllocError> {
    let cells = rows.wrapping_mul(columns) as usize;
    base.extend_from_slice(&[blocks, columns])?;
    for key in 0..blocks {
        base.extend_from_slice(&[key, rows])?;
        base.extend(repeat_n(key, cells))?;
    }
    Ok(())
}

// Register 0 is empty, and register 1 is of one column and has one row under each of these keys: the key's number.
pub(crate) fn under_keys(heap: Global, keys: &[u64]) -> Result<Vec<u64>, AllocError> {
    let mut base = Vec::from_slice(heap, &[2, 0, 1, keys.len() as u64, 1])?;
    for (i, key) in keys.iter().enumerate() {
        base.extend_from_slice(&[*key, 1, i as u64])?;
    }
    Ok(base)
}

// So many keys that differ in their upper bits only.
pub(crate) fn high_keys(heap: Global, count: u32) -> Result<Vec<u64>, AllocError> {
    (0..count).map(|i| u64::from(i) * 1048576).collect(heap)
}

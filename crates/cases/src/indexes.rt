// Going over registers by an index.
use crate::bases::{COLLIDING, under_keys};
use registers::example::sluices;
use registers::index::Index;
use registers::layout::survey;
use registers::look_up;
use registers::registers::Registers;
use registers::room::{FreeRoom, FullRoom, SmallRoom};
use std::process::Abort;
use std::test::Fail;

// Under each key that the index gives, its rows are those that are looked up.
fn check_register(
    rt: &(impl Abort + AllocGlobal),
    base: &[u64],
    index: &Index,
    register: usize,
) -> Result<(), Fail> {
    // By number, which the index is asked for and must give back.
    for number in 0..index.blocks(register) {
        let block = index.block(register, number);
        assert_eq!(rt; index.find(register, block.key), Some(number));
        let mut cells = Vec::new(rt.alloc());
        // Each row by its number, as `row` is what is tried.
        for i in 0..block.rows {
            cells.extend_from_slice(block.row(i))?;
        }
        assert_eq!(rt; look_up(base, register, block.key)?, Some(cells.as_slice()));
    }
    assert_eq!(rt; index.find(register, 0), None);
    Ok(())
}

// The index of a slice of at most 16 blocks agrees with what is looked up, and each register has so many blocks and
// columns.
fn check_index(
    rt: &(impl Abort + AllocGlobal),
    base: &[u64],
    sizes: [(usize, usize); 4],
) -> Result<(), Fail> {
    let registers = survey(base)?;
    assert!(rt; registers.directory.blocks <= 16);
    let FreeRoom {
        mut slots,
        mut places,
    } = SmallRoom::new();
    let index = registers.indexed(&mut slots, &mut places)?;
    for (register, size) in sizes.iter().enumerate() {
        let (blocks, columns) = *size;
        assert_eq!(rt; index.blocks(register), blocks);
        assert_eq!(rt; index.columns(register), columns);
        check_register(rt, base, &index, register)?;
    }
    Ok(())
}

#[test]
fn example(rt: HostRuntime) -> Result<(), Fail> {
    check_index(&rt, &sluices(), [(4, 2), (3, 2), (2, 1), (0, 0)])
}

#[test]
fn colliding(rt: HostRuntime) -> Result<(), Fail> {
    let base = under_keys(rt.alloc(), &COLLIDING)?;
    check_index(&rt, base.as_slice(), [(0, 1), (12, 1), (0, 0), (0, 0)])
}

// Whoever knows where registers stand can write them down, as one did who handed a slice and a directory to `fill`.
#[test]
fn written(rt: HostRuntime) -> Result<(), Fail> {
    let base = &sluices()[..];
    let directory = survey(base)?.directory;
    let registers = Registers { base, directory };
    let FreeRoom {
        mut slots,
        mut places,
    } = FullRoom::new();
    let index = registers.indexed(&mut slots, &mut places)?;
    assert_eq!(rt; index.find(1, 11), Some(1));
    Ok(())
}

// Which slices are refused, and at which register.
use crate::bases::{COLLIDING, add_plain, high_keys, under_keys};
use registers::check as checked;
use registers::example::sluices;
use registers::layout::NUMBER_LIMIT;
use registers::refusals::Refusal;
use std::alloc::{AllocError, Global};
use std::test::Fail;

const LARGEST: u64 = NUMBER_LIMIT - 1;

// Cut short or past a limit, at the register.
fn layout(register: usize) -> Result<(), Refusal> {
    Err(Refusal::Layout { register })
}

// A key with two blocks or a block without a row, in the register.
fn blocks(register: usize) -> Result<(), Refusal> {
    Err(Refusal::Blocks { register })
}

// What is said of an empty register and a plain one behind it.
fn plain(
    heap: Global,
    blocks: u64,
    columns: u64,
    rows: u64,
) -> Result<Result<(), Refusal>, AllocError> {
    let mut base = Vec::from_slice(heap, &[2, 0, 1])?;
    add_plain(&mut base, blocks, columns, rows)?;
    Ok(checked(base.as_slice()))
}

// What is said of registers of which the second has one row under each of these keys.
fn keyed(heap: Global, keys: &[u64]) -> Result<Result<(), Refusal>, AllocError> {
    let base = under_keys(heap, keys)?;
    Ok(checked(base.as_slice()))
}

// The example and every beginning of it.
#[test]
fn cut_short(rt: HostRuntime) -> Result<(), Fail> {
    let base = &sluices()[..];
    assert!(rt; base.len() == 48);
    for len in 0..48 {
        let register = match len {
            0 => 8,
            1..23 => 0,
            23..39 => 1,
            _ => 2,
        };
        assert_eq!(rt; checked(&base[..len]), layout(register), "{len}");
    }
    assert_eq!(rt; checked(base), Ok(()));
    Ok(())
}

// No to ten registers.
#[test]
fn counts(rt: HostRuntime) -> Result<(), Fail> {
    for count in 0..11 {
        let mut base = Vec::from_slice(rt.alloc(), &[count])?;
        for _register in 0..count {
            add_plain(&mut base, 0, 1, 0)?;
        }
        let expected = match count {
            1..9 => Ok(()),
            _ => layout(8),
        };
        assert_eq!(rt; checked(base.as_slice()), expected, "{count}");
    }
    assert_eq!(rt; checked(&[NUMBER_LIMIT + 1, 0, 1]), layout(8));
    Ok(())
}

// Blocks, columns and rows at their limits and past them, in the second register.
#[test]
fn sizes(rt: HostRuntime) -> Result<(), Fail> {
    let heap = rt.alloc();
    assert_eq!(rt; plain(heap, 0, 1, 0)?, Ok(()));
    assert_eq!(rt; plain(heap, 4096, 1, 1)?, Ok(()));
    assert_eq!(rt; plain(heap, 4097, 1, 1)?, layout(1));
    assert_eq!(rt; plain(heap, 1, 0, 1)?, layout(1));
    assert_eq!(rt; plain(heap, 0, 0, 0)?, layout(1));
    assert_eq!(rt; plain(heap, 1, 8, 1)?, Ok(()));
    assert_eq!(rt; plain(heap, 1, 9, 1)?, layout(1));
    assert_eq!(rt; plain(heap, 1, 1, 64)?, Ok(()));
    assert_eq!(rt; plain(heap, 1, 1, 65)?, layout(1));
    assert_eq!(rt; plain(heap, 4096, 8, 64)?, Ok(()));
    Ok(())
}

// The largest number, and the first that is too large, at each place of the second register and behind it.
#[test]
fn numbers(rt: HostRuntime) {
    let fitting = [2, 0, 1, 1, 1, LARGEST, 1, LARGEST, LARGEST];
    assert_eq!(rt; checked(&fitting), Ok(()));
    for place in 0..9 {
        let mut base = fitting;
        base[place] = NUMBER_LIMIT;
        let register = match place {
            0 | 8 => 8,
            1 | 2 => 0,
            _ => 1,
        };
        assert_eq!(rt; checked(&base), layout(register), "{place}");
    }
}

// Of several registers that do not fit, the first is told, and what is behind the last comes last.
#[test]
fn first_misfit(rt: HostRuntime) {
    assert_eq!(rt; checked(&[3, 0, 1, 0, 9, 0, 0, NUMBER_LIMIT]), layout(1));
    assert_eq!(rt; checked(&[2, 1, 1, 5, 1, NUMBER_LIMIT, 0, 9]), layout(0));
    assert_eq!(rt; checked(&[2, 0, 1, 1, 1, 5, 65, NUMBER_LIMIT]), layout(1));
    assert_eq!(rt; checked(&[2, 0, 1, 0, 1, 7, NUMBER_LIMIT, 7]), layout(8));
}

// Blocks without a row, and keys with two blocks: neighbours, the first and the last of many, and among keys that
// begin their ways at one slot.
#[test]
fn improper(rt: HostRuntime) -> Result<(), Fail> {
    let heap = rt.alloc();
    assert_eq!(rt; plain(heap, 1, 3, 0)?, blocks(1));
    assert_eq!(rt; checked(&[2, 0, 1, 2, 1, 5, 1, 0, 6, 0]), blocks(1));
    assert_eq!(rt; keyed(heap, &[5, 6, 5])?, blocks(1));
    assert_eq!(rt; keyed(heap, &[5, 6, 6])?, blocks(1));
    assert_eq!(rt; keyed(heap, &[0, 0])?, blocks(1));
    assert_eq!(rt; keyed(heap, &[0, 1, LARGEST])?, Ok(()));
    let mut colliding = COLLIDING;
    assert_eq!(rt; keyed(heap, &colliding)?, Ok(()));
    colliding[11] = colliding[5];
    assert_eq!(rt; keyed(heap, &colliding)?, blocks(1));
    let mut keys = high_keys(heap, 4096)?;
    assert_eq!(rt; keyed(heap, keys.as_slice())?, Ok(()));
    let _last = keys.pop();
    keys.push(0)?;
    assert_eq!(rt; keyed(heap, keys.as_slice())?, blocks(1));
    Ok(())
}

// The first improper register is told, and what does not fit before it, wherever it is; keys of two registers, and
// what is behind the last register, may be equal.
#[test]
fn order(rt: HostRuntime) {
    assert_eq!(rt; checked(&[2, 1, 1, 5, 0, 1, 1, 5, 0]), blocks(0));
    assert_eq!(rt; checked(&[2, 1, 1, 5, 0, 0, 9]), layout(1));
    assert_eq!(rt; checked(&[2, 1, 1, 5, 0, 0, 1, NUMBER_LIMIT]), layout(8));
    assert_eq!(rt; checked(&[2, 2, 1, 5, 1, 0, 5, 1, 0, 0]), layout(1));
    assert_eq!(rt; checked(&[2, 1, 1, 5, 1, 0, 1, 1, 5, 1, 0]), Ok(()));
    assert_eq!(rt; checked(&[1, 1, 1, 5, 1, 0, 5, 0, 1, 9]), Ok(()));
}

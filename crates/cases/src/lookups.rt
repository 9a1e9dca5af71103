// What is looked up under a key.
use crate::bases::{COLLIDING, add_plain, high_keys, under_keys};
use registers::example::sluices;
use registers::look_up;
use registers::refusals::Refusal;
use std::process::Abort;
use std::test::Fail;

// Each of these keys has its own number in its row, in register 1.
fn check_numbers(rt: &impl Abort, base: &[u64], keys: &[u64]) -> Result<(), Fail> {
    for (i, key) in keys.iter().enumerate() {
        assert_eq!(rt; look_up(base, 1, *key)?, Some(&[i as u64][..]), "{key}");
    }
    Ok(())
}

// Every key of the example.
#[test]
fn example(rt: HostRuntime) -> Result<(), Fail> {
    let base = &sluices()[..];
    assert_eq!(rt; look_up(base, 0, 1)?, Some(&[10, 4][..]));
    assert_eq!(rt; look_up(base, 0, 2)?, Some(&[10, 6, 11, 6][..]));
    assert_eq!(rt; look_up(base, 0, 3)?, Some(&[12, 5][..]));
    assert_eq!(rt; look_up(base, 0, 4)?, Some(&[11, 9, 11, 8][..]));
    assert_eq!(rt; look_up(base, 1, 10)?, Some(&[3, 7][..]));
    assert_eq!(rt; look_up(base, 1, 11)?, Some(&[3, 7, 5, 7][..]));
    assert_eq!(rt; look_up(base, 1, 12)?, Some(&[2, 8][..]));
    assert_eq!(rt; look_up(base, 2, 7)?, Some(&[1][..]));
    assert_eq!(rt; look_up(base, 2, 8)?, Some(&[1, 0][..]));
    Ok(())
}

// Keys that the register lacks, though another has them, and registers that are not there.
#[test]
fn absent(rt: HostRuntime) -> Result<(), Fail> {
    let base = &sluices()[..];
    assert!(rt; look_up(base, 0, 0)?.is_none());
    assert!(rt; look_up(base, 0, 10)?.is_none());
    assert!(rt; look_up(base, 1, 7)?.is_none());
    assert!(rt; look_up(base, 2, u64::MAX)?.is_none());
    assert!(rt; look_up(base, 3, 1)?.is_none());
    assert!(rt; look_up(base, usize::MAX, 1)?.is_none());
    Ok(())
}

// A refusal comes before any answer.
#[test]
fn refused(rt: HostRuntime) {
    let doubled = look_up(&[1, 2, 1, 5, 1, 0, 5, 1, 0], 0, 5);
    assert_eq!(rt; doubled, Err(Refusal::Blocks { register: 0 }));
    let cut = look_up(&[2, 1, 1, 5, 1, 0, 1], 0, 5);
    assert_eq!(rt; cut, Err(Refusal::Layout { register: 1 }));
}

// Keys whose ways in the table begin at one slot, and keys that differ in their upper bits only.
#[test]
fn keys_together(rt: HostRuntime) -> Result<(), Fail> {
    let heap = rt.alloc();
    let base = under_keys(heap, &COLLIDING)?;
    check_numbers(&rt, base.as_slice(), &COLLIDING)?;
    let keys = high_keys(heap, 1000)?;
    let base = under_keys(heap, keys.as_slice())?;
    check_numbers(&rt, base.as_slice(), keys.as_slice())
}

// Eight registers of 4,096 blocks.
#[test]
fn all_full(rt: HostRuntime) -> Result<(), Fail> {
    let mut base = Vec::from_slice(rt.alloc(), &[8])?;
    for columns in 1..9 {
        add_plain(&mut base, 4096, columns, 1)?;
    }
    let base = base.as_slice();
    assert_eq!(rt; registers::check(base), Ok(()));
    assert_eq!(rt; look_up(base, 0, 0)?, Some(&[0][..]));
    assert_eq!(rt; look_up(base, 2, 2000)?, Some(&[2000, 2000, 2000][..]));
    assert_eq!(rt; look_up(base, 7, 4095)?, Some(&[4095; 8][..]));
    assert!(rt; look_up(base, 7, 4096)?.is_none());
    assert!(rt; look_up(base, 8, 0)?.is_none());
    Ok(())
}

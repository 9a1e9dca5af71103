// Which signs are refused, and at which sign or register.
use crate::bases::WIDENING;
use crate::signs::{branching, chained, drained, full};
use questions::check as checked;
use questions::layout::SIGN_LEN;
use questions::refusals::Refusal;
use registers::example::sluices;
use registers::refusals::Refusal as RegistersRefusal;
use std::alloc::Global;
use std::process::Abort;
use std::test::Fail;

// That the sign cannot be read.
fn unread(sign: usize) -> Result<(), Refusal> {
    Err(Refusal::Signs { sign })
}

// That the question goes to the register twice.
fn twice(register: usize) -> Result<(), Refusal> {
    Err(Refusal::Twice { register })
}

// What is said of signs over registers, with another number in one place of a sign.
fn altered(
    heap: Global,
    base: &[u64],
    signs: &[u64],
    sign: usize,
    place: usize,
    number: u64,
) -> Result<Result<(), Refusal>, Fail> {
    let mut signs = Vec::from_slice(heap, signs)?;
    let at = sign.wrapping_mul(SIGN_LEN).wrapping_add(place);
    let old = signs.get_mut(at).ok_or("no such place")?;
    *old = number;
    Ok(checked(base, signs.as_slice()))
}

// The largest number that may stand in a place of a sign that goes to a register of `WIDENING`, if not all may.
fn largest(place: usize, register: u64) -> Option<u64> {
    match place {
        0 => Some(7),
        1 | 14 => Some(4),
        3 | 6 | 9 | 12 => Some(3),
        4 | 7 | 10 | 13 => None,
        _ => Some(register),
    }
}

// Each number of a sign may be as large as its limit, but no larger.
fn check_limits(
    rt: &(impl Abort + AllocGlobal),
    first: usize,
    further: &[usize],
    sign: usize,
    register: u64,
) -> Result<(), Fail> {
    let heap = rt.alloc();
    let signs = full(heap, first, further)?;
    let signs = signs.as_slice();
    for place in 0..SIGN_LEN {
        let Some(limit) = largest(place, register) else {
            continue;
        };
        let met = altered(heap, &WIDENING, signs, sign, place, limit)?;
        assert_eq!(rt; met, Ok(()), "{place}");
        for number in [limit.wrapping_add(1), u64::MAX] {
            let past = altered(heap, &WIDENING, signs, sign, place, number)?;
            assert_eq!(rt; past, unread(sign), "{place}");
        }
    }
    Ok(())
}

// What is said of signs over eight registers of 4 columns: the register and the number of further questions of each.
fn said(heap: Global, pairs: &[(u64, usize)]) -> Result<Result<(), Refusal>, Fail> {
    let mut base = Vec::from_slice(heap, &[8])?;
    for _register in 0..8 {
        base.extend_from_slice(&[0, 4])?;
    }
    let signs = branching(heap, pairs)?;
    Ok(checked(base.as_slice(), signs.as_slice()))
}

// Every beginning of a question of three signs, and up to 115 numbers too many.
#[test]
fn lengths(rt: HostRuntime) -> Result<(), Fail> {
    let base = &sluices()[..];
    let mut signs = drained(rt.alloc(), 0)?;
    signs.extend_from_slice(&[0; 115])?;
    let signs = signs.as_slice();
    assert!(rt; signs.len() == 172);
    for len in 0..172 {
        let expected = match len {
            57 => Ok(()),
            0..57 => unread(len / 19),
            58..153 => unread(3),
            _ => unread(8),
        };
        assert_eq!(rt; checked(base, &signs[..len]), expected, "{len}");
    }
    Ok(())
}

// The first sign and an inner one, that go to the widest register and to a narrow one.
#[test]
fn limits(rt: HostRuntime) -> Result<(), Fail> {
    check_limits(&rt, 7, &[4, 0, 0, 0, 0], 0, 7)?;
    check_limits(&rt, 0, &[4, 0, 0, 0, 0], 0, 0)?;
    check_limits(&rt, 6, &[1, 4, 0, 0, 0, 0], 1, 7)?;
    check_limits(&rt, 0, &[1, 4, 0, 0, 0, 0], 1, 1)
}

// A register or a column that the three registers of the example lack, at each sign.
#[test]
fn example(rt: HostRuntime) -> Result<(), Fail> {
    let heap = rt.alloc();
    let base = &sluices()[..];
    let signs = drained(heap, 0)?;
    let signs = signs.as_slice();
    for sign in 0..3 {
        assert_eq!(rt;
            altered(heap, base, signs, sign, 0, 3)?,
            unread(sign),
            "{sign}"
        );
    }
    assert_eq!(rt; altered(heap, base, signs, 0, 15, 2)?, unread(0));
    assert_eq!(rt; altered(heap, base, signs, 1, 2, 2)?, unread(1));
    assert_eq!(rt; altered(heap, base, signs, 1, 15, 2)?, unread(1));
    assert_eq!(rt; altered(heap, base, signs, 2, 2, 1)?, unread(2));
    Ok(())
}

// Of several signs that cannot be read the first is told, or that there are more than eight.
#[test]
fn first_unread(rt: HostRuntime) -> Result<(), Fail> {
    let heap = rt.alloc();
    assert_eq!(rt; said(heap, &[(8, 1), (8, 0)])?, unread(0));
    assert_eq!(rt; said(heap, &[(0, 1), (8, 1), (8, 0)])?, unread(1));
    assert_eq!(rt;
        said(heap, &[(0, 2), (1, 0), (8, 0), (3, 0), (4, 0)])?,
        unread(2)
    );
    assert_eq!(rt; said(heap, &[(0, 2), (1, 0), (2, 0), (8, 0)])?, unread(3));
    assert_eq!(rt; said(heap, &[(0, 2), (1, 1), (2, 0)])?, unread(3));
    let eight = [0, 1, 2, 3, 4, 5, 6, 7];
    assert_eq!(rt; said(heap, &chained(eight))?, Ok(()));
    assert_eq!(rt;
        said(heap, &eight.map(|register| (register, 1)))?,
        unread(8)
    );
    assert_eq!(rt; said(heap, &[(8, 1); 9])?, unread(8));
    Ok(())
}

// A register comes again in the next sign, beside it, in another branch or far behind; of several the one that comes
// again first is told.
#[test]
fn again(rt: HostRuntime) -> Result<(), Fail> {
    let heap = rt.alloc();
    assert_eq!(rt; said(heap, &[(3, 1), (3, 0)])?, twice(3));
    assert_eq!(rt; said(heap, &[(0, 2), (5, 0), (5, 0)])?, twice(5));
    assert_eq!(rt;
        said(heap, &[(0, 2), (1, 1), (4, 0), (2, 1), (4, 0)])?,
        twice(4)
    );
    assert_eq!(rt; said(heap, &chained([7, 1, 2, 3, 4, 5, 6, 7]))?, twice(7));
    assert_eq!(rt; said(heap, &chained([0, 1, 2, 3, 4, 5, 6, 6]))?, twice(6));
    assert_eq!(rt; said(heap, &chained([0, 1, 2, 3, 3, 1, 2, 0]))?, twice(3));
    assert_eq!(rt; said(heap, &chained([0, 1, 2, 3, 2, 3, 0, 1]))?, twice(2));
    Ok(())
}

// What is wrong with the registers is told first, then what cannot be read, then what comes again.
#[test]
fn order(rt: HostRuntime) -> Result<(), Fail> {
    let heap = rt.alloc();
    let layout = Err(Refusal::from(RegistersRefusal::Layout { register: 1 }));
    assert_eq!(rt; checked(&[2, 0, 1, 0, 9], &[]), layout);
    assert_eq!(rt; checked(&[2, 0, 1, 0, 9], &[0; 171]), layout);
    let blocks = Err(Refusal::from(RegistersRefusal::Blocks { register: 0 }));
    assert_eq!(rt; checked(&[1, 1, 1, 5, 0], &[]), blocks);
    assert_eq!(rt; checked(&[1, 1, 1, 5, 0], &[0; 171]), blocks);
    assert_eq!(rt; said(heap, &[(0, 1), (0, 1), (8, 0)])?, unread(2));
    assert_eq!(rt; said(heap, &[(0, 1), (0, 1)])?, unread(2));
    assert_eq!(rt; said(heap, &[(0, 1), (0, 0), (1, 0)])?, unread(2));
    Ok(())
}

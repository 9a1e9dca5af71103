// Questions that are read, and asked for what stands at each sign.
use crate::signs::{add_sign, drained, wide};
use questions::outline::Outline;
use questions::reading::read;
use questions::signs::Question;
use questions::{check as checked, widths};
use registers::example::sluices;
use registers::layout::survey;
use std::alloc::{AllocError, Global};
use std::process::Abort;
use std::test::Fail;

// Adds the tests of a question: how many, and the column, the kind and the number of each.
fn list_tests(question: &Question, list: &mut Vec<u64>) -> Result<(), AllocError> {
    list.push(question.tests() as u64)?;
    for test in (0..question.tests()).map(|i| question.test(i)) {
        list.extend_from_slice(&[test.column as u64, test.kind as u64, test.number])?;
    }
    Ok(())
}

// Adds a question: the sign at which it begins, its register, its tests, how many further questions it has, and each of
// them behind its column. A chain would name the number of each twice as the loop does, and hide the errors.
fn list_question(question: &Question, list: &mut Vec<u64>) -> Result<(), AllocError> {
    list.extend_from_slice(&[question.sign as u64, question.register() as u64])?;
    list_tests(question, list)?;
    list.push(question.further() as u64)?;
    for i in 0..question.further() {
        list.push(question.column(i) as u64)?;
        list_question(&question.begin(i), list)?;
    }
    Ok(())
}

// The question that all signs stand for, as such a list.
pub(crate) fn listed<'a>(
    heap: Global,
    widths: &'a [usize],
    signs: &'a [u64],
) -> Result<Vec<u64>, Fail> {
    let signs = read(widths, signs)?;
    let mut list = Vec::new(heap);
    list_question(&signs.question(), &mut list)?;
    Ok(list)
}

// Whether a row passes the tests of the first sign.
fn passes<'a>(
    rt: &impl Abort,
    widths: &'a [usize],
    signs: &'a [u64],
    row: &[u64],
) -> Result<bool, Fail> {
    let signs = read(widths, signs)?;
    let question = signs.question();
    assert!(rt; widths[question.register()] <= row.len());
    Ok(question.passes(row))
}

// The two questions of the example over its registers, of 2, 2 and 1 columns.
#[test]
fn example(rt: HostRuntime) -> Result<(), Fail> {
    let heap = rt.alloc();
    let base = &sluices()[..];
    assert_eq!(rt; widths(&survey(base)?.directory), [2, 2, 1, 0, 0, 0, 0, 0]);
    let drained = drained(heap, 0)?;
    assert_eq!(rt; checked(base, drained.as_slice()), Ok(()));
    let outline = read(&[2, 2, 1], drained.as_slice())?.outline;
    assert_eq!(rt;
        outline,
        Outline {
            count: 3,
            ends: [3, 3, 3, 0, 0, 0, 0, 0]
        }
    );
    let wide = wide(heap, 0)?;
    assert_eq!(rt; checked(base, wide.as_slice()), Ok(()));
    let outline = read(&[2, 2, 1], wide.as_slice())?.outline;
    assert_eq!(rt;
        outline,
        Outline {
            count: 1,
            ends: [1, 0, 0, 0, 0, 0, 0, 0]
        }
    );
    Ok(())
}

// What stands at each of their signs, whatever stands in what is not used.
#[test]
fn parts(rt: HostRuntime) -> Result<(), Fail> {
    let heap = rt.alloc();
    for number in [0, u64::MAX] {
        let signs = drained(heap, number)?;
        let list = listed(heap, &[2, 2, 1], signs.as_slice())?;
        let polder = [0, 1, 1, 1, 0, 3, 3, 1];
        let board = [1, 2, 2, 1, 0, 0, 1, 0];
        let expected: [&[u64]; 3] = [&[0, 0, 0, 1], &polder, &board];
        assert_eq!(rt; list.as_slice(), expected.concat(heap)?.as_slice());
        let signs = wide(heap, number)?;
        let list = listed(heap, &[2, 2, 1], signs.as_slice())?;
        assert_eq!(rt; list.as_slice(), &[0, 0, 1, 1, 2, 6, 0][..]);
    }
    Ok(())
}

// A row passes if it passes all of four tests, one of each kind; without tests it always does.
#[test]
fn rows(rt: HostRuntime) -> Result<(), Fail> {
    let heap = rt.alloc();
    let mut signs = Vec::new(heap);
    let tests = [[0, 0, 5], [1, 1, 6], [2, 2, 7], [3, 3, 8]];
    add_sign(&mut signs, 0, &tests, &[], 0)?;
    let signs = signs.as_slice();
    let list = listed(heap, &[4], signs)?;
    let expected = [0, 0, 4, 0, 0, 5, 1, 1, 6, 2, 2, 7, 3, 3, 8, 0];
    assert_eq!(rt; list.as_slice(), &expected[..]);
    assert!(rt; passes(&rt, &[4], signs, &[5, 7, 7, 8])?);
    assert!(rt; passes(&rt, &[4], signs, &[5, 5, 9, 0])?);
    assert!(rt; !passes(&rt, &[4], signs, &[6, 7, 7, 8])?);
    assert!(rt; !passes(&rt, &[4], signs, &[5, 6, 7, 8])?);
    assert!(rt; !passes(&rt, &[4], signs, &[5, 7, 6, 8])?);
    assert!(rt; !passes(&rt, &[4], signs, &[5, 7, 7, 9])?);
    let mut signs = Vec::new(heap);
    add_sign(&mut signs, 0, &[], &[], 0)?;
    assert!(rt; passes(&rt, &[1], signs.as_slice(), &[u64::MAX])?);
    Ok(())
}

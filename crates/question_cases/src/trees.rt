// Questions of eight signs: where the further questions of each sign begin, and which columns lead to them.
use crate::asking::listed;
use crate::signs::{branching, chained};
use questions::outline::Outline;
use questions::reading::read;
use std::test::Fail;

// Eight registers of 4 columns.
const WIDTHS: [usize; 8] = [4; 8];

// A tree of eight signs, each with its register and how many further questions it has: the first has three, one with
// two of its own, one with none, and a chain of three signs.
const TREE: [(u64, usize); 8] = [
    (7, 3),
    (6, 2),
    (5, 0),
    (4, 0),
    (3, 0),
    (2, 1),
    (1, 1),
    (0, 0),
];

// Each sign has one further question, but for the last.
#[test]
fn chain(rt: HostRuntime) -> Result<(), Fail> {
    let heap = rt.alloc();
    let signs = branching(heap, &chained([5, 4, 3, 2, 1, 0, 7, 6]))?;
    let outline = read(&WIDTHS, signs.as_slice())?.outline;
    assert_eq!(rt;
        outline,
        Outline {
            count: 8,
            ends: [8; 8]
        }
    );
    let list = listed(heap, &WIDTHS, signs.as_slice())?;
    let expected: [&[u64]; 8] = [
        &[0, 5, 0, 1],
        &[0, 1, 4, 0, 1],
        &[0, 2, 3, 0, 1],
        &[0, 3, 2, 0, 1],
        &[0, 4, 1, 0, 1],
        &[0, 5, 0, 0, 1],
        &[0, 6, 7, 0, 1],
        &[0, 7, 6, 0, 0],
    ];
    assert_eq!(rt; list.as_slice(), expected.concat(heap)?.as_slice());
    Ok(())
}

// Where the questions of the tree end, and what stands at each of its signs.
#[test]
fn tree(rt: HostRuntime) -> Result<(), Fail> {
    let heap = rt.alloc();
    let signs = branching(heap, &TREE)?;
    let outline = read(&WIDTHS, signs.as_slice())?.outline;
    assert_eq!(rt;
        outline,
        Outline {
            count: 8,
            ends: [8, 4, 3, 4, 5, 8, 8, 8]
        }
    );
    let list = listed(heap, &WIDTHS, signs.as_slice())?;
    let expected: [&[u64]; 8] = [
        &[0, 7, 0, 3],
        &[0, 1, 6, 0, 2],
        &[0, 2, 5, 0, 0],
        &[1, 3, 4, 0, 0],
        &[1, 4, 3, 0, 0],
        &[2, 5, 2, 0, 1],
        &[0, 6, 1, 0, 1],
        &[0, 7, 0, 0, 0],
    ];
    assert_eq!(rt; list.as_slice(), expected.concat(heap)?.as_slice());
    Ok(())
}

// Each sign is asked by its number: the question there begins at it, and has its register and its further questions.
#[test]
fn each_sign(rt: HostRuntime) -> Result<(), Fail> {
    let signs = branching(rt.alloc(), &TREE)?;
    let signs = read(&WIDTHS, signs.as_slice())?;
    assert_eq!(rt; signs.outline.count, 8);
    for (sign, (register, further)) in TREE.into_iter().enumerate() {
        let question = signs.at(sign);
        assert_eq!(rt; question.sign, sign);
        assert_eq!(rt; question.register() as u64, register);
        assert_eq!(rt; question.further(), further);
    }
    Ok(())
}

// Tests of a row, for each kind.
use questions::kinds::{Kind, Test, UnknownKind};
use questions::refusals::Refusal;
use registers::layout::NUMBER_LIMIT;
use std::test::Fail;

// The four kinds in their order.
const KINDS: [Kind; 4] = [Kind::Is, Kind::IsNot, Kind::AtLeast, Kind::AtMost];

// What the four kinds say, in their order, of a cell below the number, at it and above it.
const BELOW: [bool; 4] = [false, true, false, true];

const AT: [bool; 4] = [true, false, true, true];

const ABOVE: [bool; 4] = [false, true, true, false];

// Whether a row with this cell in its second column passes.
fn passes(kind: Kind, cell: u64, number: u64) -> bool {
    let test = Test {
        column: 1,
        kind,
        number,
    };
    test.passes(&[7, cell])
}

// What the four kinds say of a cell and a number.
fn answers(cell: u64, number: u64) -> [bool; 4] {
    KINDS.map(|kind| passes(kind, cell, number))
}

// Numbers at the ends of 32 and 64 bits, and their neighbours.
#[test]
fn neighbours(rt: HostRuntime) {
    for number in [0, NUMBER_LIMIT - 1, NUMBER_LIMIT, u64::MAX] {
        assert_eq!(rt; answers(number, number), AT, "{number}");
        if number > 0 {
            assert_eq!(rt; answers(number - 1, number), BELOW, "{number}");
        }
        if number < u64::MAX {
            assert_eq!(rt; answers(number + 1, number), ABOVE, "{number}");
        }
    }
}

// Numbers far apart, some of which are equal in their lower bits.
#[test]
fn far_apart(rt: HostRuntime) {
    assert_eq!(rt; answers(0, NUMBER_LIMIT), BELOW);
    assert_eq!(rt; answers(NUMBER_LIMIT, 0), ABOVE);
    assert_eq!(rt; answers(NUMBER_LIMIT - 1, u64::MAX), BELOW);
    assert_eq!(rt; answers(u64::MAX, NUMBER_LIMIT - 1), ABOVE);
    assert_eq!(rt; answers(0, u64::MAX), BELOW);
    assert_eq!(rt; answers(u64::MAX, 0), ABOVE);
}

// The numbers 0 to 3 stand for the kinds, and no other number does.
#[test]
fn numbers(rt: HostRuntime) {
    for (number, kind) in KINDS.iter().enumerate() {
        assert_eq!(rt; Kind::try_from(number as u64), Ok(*kind), "{number}");
    }
    for number in [4, NUMBER_LIMIT, u64::MAX] {
        assert_eq!(rt;
            Kind::try_from(number),
            Err(UnknownKind(number)),
            "{number}"
        );
    }
}

// The words for a test of each kind, for a number that is no kind, and for a refusal.
#[test]
fn words(rt: HostRuntime) -> Result<(), Fail> {
    let heap = rt.alloc();
    for (kind, expected) in [
        (Kind::Is, "column 2 is 7"),
        (Kind::IsNot, "column 2 is not 7"),
        (Kind::AtLeast, "column 2 at least 7"),
        (Kind::AtMost, "column 2 at most 7"),
    ] {
        let test = Test {
            column: 2,
            kind,
            number: 7,
        };
        assert_eq!(rt; format!(in heap; "{test}")?.as_str(), expected);
    }
    let unknown = UnknownKind(4);
    assert_eq!(rt;
        format!(in heap; "{unknown}")?.as_str(),
        "no kind of test has number 4"
    );
    let refusal = Refusal::Twice { register: 7 };
    assert_eq!(rt; format!(in heap; "{refusal}")?.as_str(), "refused 4 7");
    Ok(())
}

// What programs are given: bytes that come in parts, and the numbers of four bytes each, low byte first, that they
// stand for.
#![tactic(auto)]

pub mod bytes;
pub mod numbers;

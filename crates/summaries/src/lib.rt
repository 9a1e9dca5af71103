// What is told of registers: how large each is, and under how many of its keys the boards contradict each other.
#![tactic(auto)]

mod lines;
pub mod summary;

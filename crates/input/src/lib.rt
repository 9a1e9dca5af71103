// Numbers that programs are given, four bytes each, low byte first; and what is made of the bytes of a file or of
// standard input.
#![tactic(auto)]

pub mod from_parts;
pub mod numbers;
mod rest;
pub mod source;

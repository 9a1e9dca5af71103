// What stands in lent memory: registers in which several rows may stand under one key. A slice of numbers is checked,
// its registers are surveyed and indexed, and keys are looked up in them.
//
// `check` and `look_up` take any slice. The crates above survey a slice, fill room of their own with the index of its
// keys, and go over its registers, blocks and rows by an `Index`.
#![tactic(auto)]

pub mod blocks;
mod entry;
pub mod example;
pub mod filling;
pub mod index;
pub mod layout;
mod lookup;
mod parts;
pub mod refusals;
pub mod registers;
pub mod room;
pub mod table;
pub mod theorems;

pub use entry::{check, checked, look_up};

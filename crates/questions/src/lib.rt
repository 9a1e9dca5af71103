// What is asked: questions that go from register to register, read from signs.
//
// `check` takes any registers and any signs. The crates above read signs, and ask a question for its register, its
// tests and its further questions by `Question`.
#![tactic(auto)]

mod asked;
mod entry;
pub mod kinds;
pub mod layout;
pub mod outline;
pub mod reading;
pub mod refusals;
pub mod signs;
pub mod theorems;

pub use entry::{check, widths};

// What the programs do alike: they read the file that the argument names, or standard input, tell what they have to,
// and say why where they cannot.
#![tactic(auto)]

mod failure;
mod running;

pub use running::run;

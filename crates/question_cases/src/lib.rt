// The tests of `questions`. They stand in a crate of their own, since a crate with tests is proved twice.
#![tactic(auto)]

#[cfg(test)]
mod asking;
#[cfg(test)]
mod bases;
#[cfg(test)]
mod kinds;
#[cfg(test)]
mod misread;
#[cfg(test)]
mod signs;
#[cfg(test)]
mod trees;

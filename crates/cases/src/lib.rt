// The tests of `registers`. They stand in a crate of their own, since a crate with tests is proved twice.
#![tactic(auto)]

#[cfg(test)]
mod bases;
#[cfg(test)]
mod indexes;
#[cfg(test)]
mod lookups;
#[cfg(test)]
mod refusals;

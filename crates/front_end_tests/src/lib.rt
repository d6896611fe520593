//! A test of the limit on files of a set, which no command reaches. What the program shows of scripts stands in `cases/`. It stands in a crate of its
//! own, so that the proofs of the crates below aren't made twice.
#![tactic(auto)]

#[cfg(test)]
mod linking;
#[cfg(test)]
mod sources;

//! Tests of desks and sinks in memory of which a call fails, and of a real file. What the program shows stands in `cases/`. They stand in a crate
//! of their own, so that the proofs of `papy_io` aren't made twice.
#![tactic(auto)]

#[cfg(test)]
mod desks;

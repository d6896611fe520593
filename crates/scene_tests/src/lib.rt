//! Tests of turns of the machine of which a write fails: what no command shows.
#![tactic(auto)]

#[cfg(test)]
mod turns;

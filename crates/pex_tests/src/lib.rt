//! Tests of compiled files as values, bytes and listings, and of the values that typed trees become: what no command shows.
#![tactic(auto)]

#[cfg(test)]
mod codec;
#[cfg(test)]
mod emitting;
#[cfg(test)]
mod listing;

//! Tests of the top call on files in memory of which single calls fail, and of a sample without devices.
#![tactic(auto)]

#[cfg(test)]
mod calls;
#[cfg(test)]
mod failing_calls;

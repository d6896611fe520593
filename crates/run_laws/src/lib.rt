//! The laws that hold of all runs of scripts and of loaded code. Each is the contract of a function that does nothing.
#![tactic(auto)]

mod bounded;
mod code_runs;
mod exclusive;
mod fits;
mod holding;
mod related;
mod touch;

pub use bounded::{code_steps_are_the_run, code_turn_is_bounded};
pub use code_runs::{code_run_goes_on, code_run_is_exclusive, code_turn_touches_its_own};
pub use exclusive::{first_is_exclusive, run_is_exclusive, some_stack_is_ready, step_is_exclusive};
pub use fits::{typed_code_keeps_what_fits, typed_scripts_keep_what_fits};
pub use holding::code_states_hold;
pub use related::{
    Related, engines_are_alike_where_one_keeps_what_fits, related_engines_run_alike,
};
pub use touch::turn_touches_its_own;

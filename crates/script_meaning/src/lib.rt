//! What running scripts means, as definitions: worlds, acts, turns and runs of any engine, the engine of typed trees, and what a run
//! prints.
#![tactic(auto)]

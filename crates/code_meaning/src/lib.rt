//! What running loaded code means, as definitions: instructions in the order of the opcodes, look-up, and the engine of both.
#![tactic(auto)]

// The machine's step: the opcodes, and an arm for each.
#![tactic(auto)]

pub mod arms;
pub mod opcodes;

// The screen in lent memory: sizes and soundness, the clear.
#![tactic(auto)]

pub mod clear;
pub mod sizes;

// The machine's arithmetic on 32-bit words: the fields of an instruction, what it works out, its flags, and DOT.
#![tactic(auto)]

pub mod arithmetic;
pub mod dot;
pub mod fields;
pub mod reciprocals;
pub mod signed;

// The machine: a state by value, and runs of it over a lent program, data memory and RAM.
#![tactic(auto)]

pub mod calls;

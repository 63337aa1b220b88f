// Vertices in range, and edge values at pixels.
#![tactic(auto)]

pub mod corners;
pub mod ranges;
pub mod values;

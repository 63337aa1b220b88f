// Drawing a triangle on a screen in lent memory: the rows and columns it can touch, frame, frame of one column, call.
#![tactic(auto)]

pub mod frames;
pub mod narrow;
pub mod touched;
pub mod triangles;

// Drawing a row of a triangle in lent memory: pixel, chunk, row, and a row of one column.
#![tactic(auto)]

pub mod chunks;
pub mod lone;
pub mod pixels;

use rules::{Screen, Triangle};

// A row of a screen, and the triangle that is drawn in it.
#[derive(Clone, Copy)]
pub struct Line {
    pub screen: Screen,
    pub triangle: Triangle,
    pub row: u32,
}

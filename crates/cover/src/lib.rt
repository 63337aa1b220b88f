// Which pixels of a row a triangle covers.
#![tactic(auto)]

pub mod crossed;
pub mod points;
pub mod setup;
pub mod spans;
pub mod ticks;
pub mod units;

// One edge: what a row adds to its crossing, raised by LIFT; `ends`: going right the inside ends.
#[derive(Clone, Copy)]
pub struct Side {
    pub down: u64,
    pub ends: bool,
}

// One of each edge of a triangle, in the vertices' order.
#[derive(Clone, Copy)]
pub struct Three<T> {
    pub p: T,
    pub q: T,
    pub r: T,
}

pub type Sides = Three<Side>;

// How far before column 0 each edge crosses a row, in ticks of a column, rounded up and raised by RAISE.
pub type Crossings = Three<u64>;

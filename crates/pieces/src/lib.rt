// The machine's state in the pieces in which a run holds it: the registers lent, a small struct that each step changes, and what only the
// instructions from SCRSET on touch.
#![tactic(auto)]

pub mod registers;
pub mod state;

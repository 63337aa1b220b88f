// A row of which one column alone can be covered.
ghost use Rattle.rows.specs.Lines.{drawing};
ghost use Rattle.rows.specs.Rows.{LoneAsked, RowDone};

use crate::Line;
use crate::pixels::pixel;
use masks::Masks;
use planes::Tints;
use rules::Counts;
use screen::sizes::{colour_at, depth_at};

// A row of which pixel x is covered where `on` says so: the ones of its group's mask are counted, as 01 counts, and the pixel drawn.
pub fn lone(ram: &mut [u8], line: Line, x: u32, on: bool, given: Counts) -> Counts
    requires { LoneAsked line x on (drawing ram.old given) }
    ensures { RowDone line (drawing ram.old given) (drawing ram.new result) }
{
    if !on {
        return given;
    }
    let m = Masks::of_span(x % 16, x % 16 + 1);
    let colour = colour_at(line.screen, x, line.row);
    let depth = depth_at(line.screen, x, line.row);
    let v = Tints::at(line.triangle, x, line.row);
    Counts {
        covered: given.covered + m.groups[0].count_ones(),
        written: pixel(ram, colour, depth, v, given.written),
    }
}

// A frame of one column.
ghost use Rattle.std.specs.Prelude.{length};
ghost use Rattle.rows.specs.Lines.{drawing};
ghost use Rattle.draw.specs.Frames.{FrameDone, NarrowAsked};

use crate::touched::touched_rows;
use cover::points::inside_all;
use edges::corners::Corners;
use rows::Line;
use rows::lone::lone;
use rules::{Counts, Screen, Triangle};
use screen::sizes::height;

// A triangle that has nothing outside column x: in each row that it can touch, that pixel, where it is inside. Judged so, a pixel takes
// fewer instructions than a span of one.
pub fn narrow(ram: &mut [u8], s: Screen, t: Triangle, x: u32) -> Counts
    requires { NarrowAsked (length ram.old) s t x }
    ensures { FrameDone ram.old s t (drawing ram.new result) }
{
    let corners = Corners {
        vertices: t.vertices,
    };
    let rows = touched_rows(t.vertices, height(s.size));
    let mut c = Counts {
        covered: 0,
        written: 0,
    };
    for y in rows.start..rows.end {
        let line = Line {
            screen: s,
            triangle: t,
            row: y,
        };
        c = lone(ram, line, x, inside_all(corners, x, y), c);
    }
    c
}

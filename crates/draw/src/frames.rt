// A frame, row by row.
ghost use Rattle.std.specs.Prelude.{length};
ghost use Rattle.rows.specs.Lines.{drawing};
ghost use Rattle.draw.specs.Frames.{FrameAsked, FrameDone};

use crate::touched::touched_rows;
use cover::crossed::{crossings_at, crossings_below};
use cover::setup::sides;
use cover::spans::row_span;
use edges::corners::Corners;
use rows::Line;
use rows::chunks::row;
use rules::{Counts, Screen, Triangle};
use screen::sizes::{height, width};

// The rows that the triangle can touch, each by its span. It answers how many pixels were covered and how many written.
pub fn frame(ram: &mut [u8], s: Screen, t: Triangle) -> Counts
    requires { FrameAsked (length ram.old) s t }
    ensures { FrameDone ram.old s t (drawing ram.new result) }
{
    let corners = Corners {
        vertices: t.vertices,
    };
    let d = sides(corners);
    let w = width(s.size);
    let rows = touched_rows(t.vertices, height(s.size));
    let mut m = crossings_at(corners, rows.start);
    let mut c = Counts {
        covered: 0,
        written: 0,
    };
    for y in rows.start..rows.end {
        let line = Line {
            screen: s,
            triangle: t,
            row: y,
        };
        // the counts go along: added row by row they cost registers
        c = row(ram, line, row_span(m, d, w), c);
        m = crossings_below(m, d);
    }
    c
}

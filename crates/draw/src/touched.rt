// Which rows and columns a triangle can touch on a screen.
ghost use Rattle.std.specs.Prelude.{◌<◌, IfSome};
ghost use Rattle.draw.specs.Frames.{Clipped, ColumnsTouched, NothingBut, RowsTouched, Touched};

use extent::Numbers;
use rules::Vertices;
use std::ops::Range;

// The places from `first` to `past`, as far as they are below `limit`.
fn clipped(first: u32, past: u32, limit: u32) -> Range<u32>
    ensures { Clipped first past limit result }
{
    let end = past.min(limit);
    first.min(end)..end
}

// The places below `limit`, rows or columns, whose sample points lie between three vertex numbers.
fn touched(n: Numbers, limit: u32) -> Range<u32>
    ensures { Touched n.a n.b n.c limit result }
{
    clipped(n.first_touched(), n.past_touched(), limit)
}

// The rows of a screen of this height.
pub fn touched_rows(v: Vertices, height: u32) -> Range<u32>
    ensures { RowsTouched v height result }
{
    touched(Numbers::down(v), height)
}

// The columns of a screen of this width.
pub fn touched_columns(v: Vertices, width: u32) -> Range<u32>
    ensures { ColumnsTouched v width result }
{
    touched(Numbers::across(v), width)
}

// Whether two vertex numbers are less than two pixels apart.
fn close(a: i32, b: i32) -> bool {
    a.abs_diff(b) < 16
}

// The only column that the triangle can touch on a screen of w columns, where there is one. Most triangles are told from two numbers.
pub fn lone_column(v: Vertices, w: u32) -> Option<u32>
    ensures on_screen { IfSome result (λ x. x < w) }
    ensures alone { IfSome result (NothingBut v w) }
{
    if !close(v.x1, v.x2) {
        return None;
    }
    if !close(v.x1, v.x3) {
        return None;
    }
    let columns = touched_columns(v, w);
    if columns.end - columns.start == 1 {
        return Some(columns.start);
    }
    None
}

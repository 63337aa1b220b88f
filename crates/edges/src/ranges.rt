// Numbers 6 and 7: vertices and edge values in range.
ghost use Rattle.std.specs.Prelude.{◌≡◌, ◌&&◌, ◌≤◌, ltb};
ghost use Rattle.rules.specs.Folds.{pixels};
ghost use Rattle.rules.specs.Numbers.{vertex_in_range, vertices_in_range, edge_too_large, triangle_too_large};
ghost use Rattle.edges.specs.Corners.{edge_of};

use crate::corners::Corners;
use crate::values::Edge;
use rules::Vertices;

// Whether a vertex number is in -8192..8191.
fn vertex_in_range(v: i32) -> bool
    ensures { result ≡ vertex_in_range v }
{
    (-8192..=8191).contains(&v)
}

// Number 6: whether all six vertex numbers are in range.
pub fn vertices_in_range(v: Vertices) -> bool
    ensures { result ≡ vertices_in_range v }
{
    vertex_in_range(v.x1)
        & vertex_in_range(v.y1)
        & vertex_in_range(v.x2)
        & vertex_in_range(v.y2)
        & vertex_in_range(v.x3)
        & vertex_in_range(v.y3)
}

// Whether the edge value at pixel (x, y) leaves signed 32 bits.
#[tactic(auto, using(std::proofs::lemmas::Int::ints, crate::proofs::Large::never_too_large))]
fn pixel_too_large(e: Edge, x: u32, y: u32) -> bool
    requires columns { x ≤ 640 }
    requires rows { y ≤ 512 }
    ensures { result ≡ edge_too_large (edge_of e) x y }
{
    let v = e.value(x, y);
    i32::try_from(v).is_err()
}

// Whether it does so at some pixel of w columns and h rows: it is largest and least at the corners.
#[tactic(auto, using(crate::proofs::Large::never_too_large, crate::proofs::Large::edge_never_too_large))]
fn edge_too_large(e: Edge, w: u32, h: u32) -> bool
    requires some_columns { 1 ≤ w }
    requires columns { w ≤ 640 }
    requires some_rows { 1 ≤ h }
    requires rows { h ≤ 512 }
    ensures { result ≡ ltb 0 (pixels (edge_too_large (edge_of e)) w h) }
{
    let right = w - 1;
    let bottom = h - 1;
    pixel_too_large(e, 0, 0)
        | pixel_too_large(e, right, 0)
        | pixel_too_large(e, 0, bottom)
        | pixel_too_large(e, right, bottom)
}

// Number 7: whether an edge value leaves signed 32 bits at some pixel of w columns and h rows.
#[tactic(auto, using(crate::proofs::Large::edge_never_too_large, crate::proofs::Large::triangle_never_too_large))]
pub fn triangle_too_large(c: Corners, w: u32, h: u32) -> bool
    requires some_columns { 1 ≤ w }
    requires columns { w ≤ 640 }
    requires some_rows { 1 ≤ h }
    requires rows { h ≤ 512 }
    ensures { result ≡ triangle_too_large c.vertices w h }
{
    edge_too_large(c.edge1(), w, h)
        | edge_too_large(c.edge2(), w, h)
        | edge_too_large(c.edge3(), w, h)
}

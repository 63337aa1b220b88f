// From vertices to sides.
ghost use Rattle.std.specs.Prelude.{◌≡◌, ◌≤◌, nat_abs};
ghost use Rattle.rules.specs.Triangles.{keeps_zero};
ghost use Rattle.edges.specs.Corners.{edge_of};
ghost use Rattle.cover.specs.Side.{loss, rising_value, down, SideOf, SidesOf};

use crate::ticks::in_ticks;
use crate::units::LIFT;
use crate::{Side, Sides, Three};
use edges::corners::Corners;
use edges::values::Edge;

// Whether an edge's zeros are inside.
#[tactic(auto, unfolding(rules::specs::Triangles::keeps_zero))]
fn keeps_zero(dx: i64, dy: i64) -> bool
    ensures { result ≡ keeps_zero dx dy }
{
    (dy < 0) | (dy == 0) & (0 < dx)
}

// What an edge's value loses where they are outside.
pub fn loss(dx: i64, dy: i64) -> i64
    ensures lost { result ≡ loss dx dy }
    ensures bound { nat_abs result ≤ 1 }
{
    if keeps_zero(dx, dy) { 0 } else { 1 }
}

// An edge's value v, lowered, with the sign that makes it rise along a row.
#[tactic(auto, using(std::proofs::lemmas::Int::ints, std::proofs::lemmas::Int::wraps), unfolding(crate::specs::Side::lowered))]
pub fn rising_value(v: i64, dx: i64, dy: i64) -> i64
    requires { nat_abs v ≤ 419659776 }
    ensures { result ≡ rising_value v dx dy }
{
    let lowered = v - loss(dx, dy);
    if 0 < dy { -1 - lowered } else { lowered }
}

// What one row adds to the rising value.
fn down(dx: i64, dy: i64) -> i64
    requires { nat_abs dx ≤ 16384 }
    ensures { result ≡ down dx dy }
{
    if 0 < dy { -8 * dx } else { 8 * dx }
}

// The side of an edge.
fn side(e: Edge) -> Side
    ensures { SideOf (edge_of e) result }
{
    let dx = e.dx();
    let dy = e.dy();
    Side {
        down: in_ticks(down(dx, dy), dy, LIFT),
        ends: 0 < dy,
    }
}

// The sides of the three edges, in the vertices' order.
pub fn sides(c: Corners) -> Sides
    ensures { SidesOf c.vertices result }
{
    Three {
        p: side(c.edge1()),
        q: side(c.edge2()),
        r: side(c.edge3()),
    }
}

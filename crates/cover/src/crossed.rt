// The three edges' crossings, from row to row.
ghost use Rattle.std.specs.Prelude.{ℕ, ◌+◌, ◌≤◌};
ghost use Rattle.rules.specs.declared.Vertices.{Vertices};
ghost use Rattle.edges.specs.Corners.{edge_of};
ghost use Rattle.cover.specs.Side.{SidesOf, CrossingOf, CrossingsOf, CanGoBelow};

use crate::setup::rising_value;
use crate::ticks::in_ticks;
use crate::units::{LIFT, RAISE};
use crate::{Crossings, Sides, Three};
use edges::corners::Corners;
use edges::values::Edge;

// An edge's crossing in row y.
fn crossing(e: Edge, y: u32) -> u64
    requires { y ≤ 512 }
    ensures { CrossingOf (edge_of e) y result }
{
    let dx = e.dx();
    let dy = e.dy();
    let v = e.value(0, y);
    in_ticks(rising_value(v, dx, dy), dy, RAISE)
}

// The crossings in row y.
pub fn crossings_at(c: Corners, y: u32) -> Crossings
    requires { y ≤ 512 }
    ensures { CrossingsOf c.vertices y result }
{
    Three {
        p: crossing(c.edge1(), y),
        q: crossing(c.edge2(), y),
        r: crossing(c.edge3(), y),
    }
}

// The crossings in the row below.
pub fn crossings_below(m: Crossings, d: Sides) -> Crossings
    requires { CanGoBelow m d }
    ensures { (v : Vertices) (y : ℕ) → SidesOf v d → CrossingsOf v y m → CrossingsOf v (y + 1) result }
{
    Three {
        p: m.p + d.p.down - LIFT,
        q: m.q + d.q.down - LIFT,
        r: m.r + d.r.down - LIFT,
    }
}

// Whether a pixel's sample point is inside, by the edges' values there.
ghost use Rattle.std.specs.Prelude.{◌≡◌, ◌≤◌};
ghost use Rattle.rules.specs.Triangles.{inside, inside_all, sample};
ghost use Rattle.edges.specs.Corners.{edge_of};

use crate::setup::loss;
use edges::corners::Corners;
use edges::values::Edge;

// One edge: its value, lowered, is not negative.
fn inside(e: Edge, x: u32, y: u32) -> bool
    requires columns { x ≤ 640 }
    requires rows { y ≤ 512 }
    ensures { result ≡ inside (edge_of e) (sample x y) }
{
    let dx = e.dx();
    let dy = e.dy();
    0 <= e.value(x, y) - loss(dx, dy)
}

#[tactic(auto, unfolding(rules::specs::Triangles::inside_all))]
pub fn inside_all(c: Corners, x: u32, y: u32) -> bool
    requires columns { x ≤ 640 }
    requires rows { y ≤ 512 }
    ensures { result ≡ inside_all c.vertices (sample x y) }
{
    inside(c.edge1(), x, y) & inside(c.edge2(), x, y) & inside(c.edge3(), x, y)
}

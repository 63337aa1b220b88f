// A triangle's three vertices, in range, and its edges.
ghost use Rattle.std.specs.Prelude.{◌≡◌, true};
ghost use Rattle.rules.specs.Numbers.{vertices_in_range};

use crate::ranges::vertices_in_range;
use crate::values::Edge;
use rules::Vertices;

// Vertices of which each number is in range.
#[derive(Clone, Copy)]
pub struct Corners {
    pub vertices: Vertices,
    pub ghost in_range: { vertices_in_range vertices ≡ true },
}

#[tactic(auto, using(std::proofs::lemmas::Int::wraps, crate::proofs::Within::edge1_in_range, crate::proofs::Within::edge2_in_range, crate::proofs::Within::edge3_in_range))]
impl Corners {
    ghost use Rattle.std.specs.Prelude.{false, IfSome, IfNone};
    ghost use Rattle.rules.specs.Triangles.{edge1, edge2, edge3};
    ghost use Rattle.edges.specs.Corners.{edge_of};

    // These vertices, exactly where they are in range: number 6.
    pub fn new(vertices: Vertices) -> Option<Self>
        ensures some { IfSome result (λ c. c.vertices ≡ vertices) }
        ensures none { IfNone result (vertices_in_range vertices ≡ false) }
    {
        if !vertices_in_range(vertices) {
            return None;
        }
        Some(Corners { vertices })
    }

    // From the first vertex to the second.
    pub fn edge1(self) -> Edge
        ensures { edge_of result ≡ edge1 self.vertices }
    {
        let v = self.vertices;
        Edge {
            x1: v.x1,
            y1: v.y1,
            x2: v.x2,
            y2: v.y2,
        }
    }

    // From the second to the third.
    pub fn edge2(self) -> Edge
        ensures { edge_of result ≡ edge2 self.vertices }
    {
        let v = self.vertices;
        Edge {
            x1: v.x2,
            y1: v.y2,
            x2: v.x3,
            y2: v.y3,
        }
    }

    // From the third back to the first.
    pub fn edge3(self) -> Edge
        ensures { edge_of result ≡ edge3 self.vertices }
    {
        let v = self.vertices;
        Edge {
            x1: v.x3,
            y1: v.y3,
            x2: v.x1,
            y2: v.y1,
        }
    }
}

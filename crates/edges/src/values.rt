// An edge between two vertices in range, and its value at a pixel.
ghost use Rattle.std.specs.Prelude.{◌≡◌, true};
ghost use Rattle.edges.specs.Edges.{edge_from, edge_in_range};

// How far to the right and down in its pixel the sample point lies.
pub const SAMPLE_OFFSET: i64 = 4;

// The directed edge from (x1, y1) to (x2, y2).
#[derive(Clone, Copy)]
pub struct Edge {
    pub x1: i32,
    pub y1: i32,
    pub x2: i32,
    pub y2: i32,
    pub ghost in_range: { edge_in_range (edge_from x1 y1 x2 y2) ≡ true },
}

impl Edge {
    ghost use Rattle.std.specs.Prelude.{◌≤◌, nat_abs};
    ghost use Rattle.rules.specs.Triangles.{dx, dy, edge_value, sample};
    ghost use Rattle.edges.specs.Corners.{edge_of};

    // How far to the right of its first vertex the second lies.
    pub fn dx(self) -> i64
        ensures distance { result ≡ dx (edge_of self) }
        ensures bound { nat_abs result ≤ 16384 }
    {
        self.x2 as i64 - self.x1 as i64
    }

    // How far below it.
    pub fn dy(self) -> i64
        ensures distance { result ≡ dy (edge_of self) }
        ensures bound { nat_abs result ≤ 16384 }
    {
        self.y2 as i64 - self.y1 as i64
    }

    // Its value at pixel (x, y).
    pub fn value(self, x: u32, y: u32) -> i64
        requires columns { x ≤ 640 }
        requires rows { y ≤ 512 }
        ensures value { result ≡ edge_value (edge_of self) (sample x y) }
        ensures bound { nat_abs result ≤ 419659776 }
    {
        let dx = self.dx();
        let dy = self.dy();
        let px = 8 * (x as i64) + SAMPLE_OFFSET;
        let py = 8 * (y as i64) + SAMPLE_OFFSET;
        (py - self.y1 as i64) * dx - (px - self.x1 as i64) * dy
    }
}

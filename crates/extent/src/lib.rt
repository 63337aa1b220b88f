// Which rows, or columns, a triangle can touch: those whose sample points lie between its vertices.
#![tactic(auto)]

ghost use Rattle.std.specs.Prelude.{ℕ, ◌≡◌, ◌≤◌, ◌<◌};
ghost use Rattle.extent.specs.Extent.{Before, Beyond};

use edges::values::SAMPLE_OFFSET;
use rules::Vertices;

// A number of each vertex: how far to the right it lies, or how far down, in eighths of a pixel.
#[derive(Clone, Copy)]
pub struct Numbers {
    pub a: i32,
    pub b: i32,
    pub c: i32,
}

impl Numbers {
    // How far to the right.
    pub fn across(v: Vertices) -> Self
        ensures first { result.a ≡ v.x1 }
        ensures second { result.b ≡ v.x2 }
        ensures third { result.c ≡ v.x3 }
    {
        Numbers {
            a: v.x1,
            b: v.x2,
            c: v.x3,
        }
    }

    // How far down.
    pub fn down(v: Vertices) -> Self
        ensures first { result.a ≡ v.y1 }
        ensures second { result.b ≡ v.y2 }
        ensures third { result.c ≡ v.y3 }
    {
        Numbers {
            a: v.y1,
            b: v.y2,
            c: v.y3,
        }
    }

    // All rows, or columns, before this one have their sample points before the three numbers.
    pub fn first_touched(self) -> u32
        ensures { (k : ℕ) → k < result → Before self.a self.b self.c k }
    {
        // a number between two sample points counts as the later one
        let by = 7 - SAMPLE_OFFSET;
        let low = self.a.min(self.b).min(self.c) as i64 + by;
        low.max(0) as u32 / 8
    }

    // This one and all after it have their sample points beyond the three numbers.
    pub fn past_touched(self) -> u32
        ensures { (k : ℕ) → result ≤ k → Beyond self.a self.b self.c k }
    {
        // a number between two sample points counts as the earlier one, whose place is the last before this
        let by = 8 - SAMPLE_OFFSET;
        let high = self.a.max(self.b).max(self.c) as i64 + by;
        high.max(0) as u32 / 8
    }
}

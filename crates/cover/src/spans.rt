// The span of a row's pixels that are inside.
ghost use Rattle.std.specs.Prelude.{◌≡◌, true, ℕ, ◌+◌, ◌*◌, ◌≤◌};
ghost use Rattle.rules.specs.declared.Vertices.{Vertices};
ghost use Rattle.rules.specs.Numbers.{vertices_in_range};
ghost use Rattle.cover.specs.Units.{unit, raise};
ghost use Rattle.cover.specs.Side.{SidesOf, CrossingsOf};
ghost use Rattle.cover.specs.Spans.{begin, end, column, RowSpan};

use crate::units::{RAISE, UNIT};
use crate::{Crossings, Sides};
use std::ops::Range;

// Of two crossings where the inside begins, the one further right, which is the lesser; one where it ends does not count.
fn begin(crossing: u64, ends: bool, least: u64) -> u64
    ensures { result ≡ begin crossing ends least }
{
    if ends { least } else { crossing.min(least) }
}

// Of two where it ends, the one further left, which is the greater; one where it begins does not count.
fn end(crossing: u64, ends: bool, most: u64) -> u64
    ensures { result ≡ end crossing ends most }
{
    if ends { crossing.max(most) } else { most }
}

// The first column that is not before a crossing.
fn column(crossing: u64) -> u32
    requires begun { crossing ≤ raise }
    requires near { raise ≤ crossing + unit * 640 }
    ensures { result ≡ column crossing }
{
    (RAISE - crossing).div_ceil(UNIT) as u32
}

// The span among the first w columns: the inside begins where the last edge begins it, and ends where the first one ends it.
pub fn row_span(m: Crossings, d: Sides, w: u32) -> Range<u32>
    requires { w ≤ 640 }
    ensures { (v : Vertices) (y : ℕ) → vertices_in_range v ≡ true → y ≤ 480 → SidesOf v d → CrossingsOf v y m → RowSpan v y w result }
{
    let least = begin(
        m.p,
        d.p.ends,
        begin(m.q, d.q.ends, begin(m.r, d.r.ends, RAISE)),
    );
    let most = end(
        m.p,
        d.p.ends,
        end(m.q, d.q.ends, end(m.r, d.r.ends, RAISE - UNIT * w as u64)),
    );
    if least <= most {
        return 0..0;
    }
    column(least)..column(most)
}

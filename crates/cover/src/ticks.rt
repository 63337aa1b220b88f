// An edge's values in ticks of a column.
ghost use Rattle.std.specs.Prelude.{◌≡◌, ◌≤◌, nat_abs, ◌*ℤ◌};
ghost use Rattle.cover.specs.Units.{Raisable, Rounded};
ghost use Rattle.cover.specs.Side.{across, scale};

use crate::units::{UNIT, rounded_up};

// UNIT as a signed number.
const SCALE: i64 = UNIT as i64;

// 640 times that: the ticks of all columns.
const LEVEL_SCALE: i64 = 640 * SCALE;

// What one column adds to the rising value, and 1 where that is nothing.
fn across(dy: i64) -> u64
    requires { nat_abs dy ≤ 16384 }
    ensures { result ≡ across dy }
{
    (8 * dy.unsigned_abs()).max(1)
}

// What the rising value is multiplied by: the ticks of a column, or of 640 columns where it does not rise.
fn scale(dy: i64) -> i64
    ensures { result ≡ scale dy }
{
    if dy == 0 { LEVEL_SCALE } else { SCALE }
}

// v by the step across, in ticks of a column, rounded up and raised by r.
pub fn in_ticks(v: i64, dy: i64, r: u64) -> u64
    requires near { nat_abs dy ≤ 16384 }
    requires raisable { Raisable (scale dy *ℤ v) r }
    ensures { Rounded (scale dy *ℤ v) (across dy) r 1 result }
{
    rounded_up(scale(dy) * v, across(dy), r)
}

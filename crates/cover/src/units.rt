// A column in ticks, and quotients rounded up to whole numbers.
ghost use Rattle.std.specs.Prelude.{◌≡◌, ◌≤◌, nat_abs, pos, negsuc, ◌-ℤ◌};
ghost use Rattle.rules.specs.Folds.{choose};
ghost use Rattle.rules.specs.Triangles.{negative};
ghost use Rattle.cover.specs.Units.{Raisable, Rounded};

// A column, in ticks: more than a step across times the rows of a screen, so that a rounding in each row misjudges no pixel.
pub const UNIT: u64 = 1 << 26;

// What a crossing is raised by, so that none is negative.
pub const RAISE: u64 = 1 << 63;

// What a step down is raised by.
pub const LIFT: u64 = 1 << 53;

// z, or -1 - z where z is negative.
fn folded(z: i64) -> u64
    requires { nat_abs z ≤ 9000000000000000000 }
    ensures { pos result ≡ choose (negative z) (negsuc 0 -ℤ z) z }
{
    (if z < 0 { -1 - z } else { z }) as u64
}

// A whole number that is z / a or more, by 1 at most, raised by r.
#[tactic(auto, using(std::proofs::lemmas::Int::ints, std::proofs::lemmas::Int::wraps, crate::proofs::Quotients::rounded_on, crate::proofs::Quotients::rounded_back))]
pub fn rounded_up(z: i64, a: u64, r: u64) -> u64
    requires raisable { Raisable z r }
    requires divides { 1 ≤ a }
    ensures { Rounded z a r 1 result }
{
    let on = folded(z) / a;
    if z < 0 { r - on } else { r + on + 1 }
}

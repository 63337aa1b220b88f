// The plane through three values, one at each vertex of a triangle.
#![tactic(auto)]

ghost use Rattle.std.specs.Prelude.{◌≡◌, ◌≤◌, true, false, pos, nat_abs, ◌<ℤ◌, IfErr, IfOk, OnErr, OnOk};
ghost use Rattle.rules.specs.Answers.{refusal_number};
ghost use Rattle.rules.specs.Triangles.{doubled_area, sample};
ghost use Rattle.rules.specs.Numbers.{in_signed32};
ghost use Rattle.interpolation.specs.Answers.{through_of};
ghost use Rattle.interpolation.specs.Interpolation.{PassesThrough, in_units, numerator, numerator_a, numerator_b, rounded_down};
ghost use Rattle.interpolation.specs.Interpolation.{through_a, through_b, through_c, through_number, value_in_range, values_in_range};
ghost use Rattle.through.specs.Through.{CanDivide, Small, determinant, folded};

use edges::corners::Corners;
use edges::values::SAMPLE_OFFSET;
use interpolation::Values;
use rules::{Plane, Refusal, Vertices};

// How much c is raised: three roundings lose less than this at the last pixel, 1 + 639 + 479.
const RAISE: i64 = 1119;

// Whether a value is in 0..32767.
fn value_in_range(r: i32) -> bool
    ensures { result ≡ value_in_range r }
{
    (0..=32767).contains(&r)
}

// Whether all three are.
#[tactic(auto, unfolding(interpolation::specs::Interpolation::values_in_range))]
fn values_in_range(r: Values) -> bool
    ensures { result ≡ values_in_range r }
{
    value_in_range(r.r1) & value_in_range(r.r2) & value_in_range(r.r3)
}

// A determinant of Cramer's rule, by differences from its first row: the doubled area is one, and so are the numerators of A and B.
fn determinant(p1: i32, p2: i32, p3: i32, q1: i32, q2: i32, q3: i32) -> i64
    requires p { Small p1 p2 p3 }
    requires q { Small q1 q2 q3 }
    ensures { result ≡ determinant p1 p2 p3 q1 q2 q3 }
{
    let p = p1 as i64;
    let q = q1 as i64;
    (p2 as i64 - p) * (q3 as i64 - q) - (p3 as i64 - p) * (q2 as i64 - q)
}

fn doubled_area(corners: Corners) -> i64
    ensures { result ≡ doubled_area corners.vertices }
{
    let v = corners.vertices;
    determinant(v.x1, v.x2, v.x3, v.y1, v.y2, v.y3)
}

// -1 - n where it is to be folded, at the middle between 0 and -1.
fn folded(n: i64, fold: bool) -> i64
    ensures { result ≡ folded fold n }
{
    if fold { !n } else { n }
}

// n / d rounded down. Division rounds toward zero, so a negative n is folded first, and its quotient folded back.
fn rounded_down(n: i64, d: i64) -> i64
    requires { CanDivide n d }
    ensures { result ≡ rounded_down n d }
{
    let below = n < 0;
    folded(folded(n, below) / d, below)
}

fn signed32(z: i64) -> Result<i32, Refusal>
    ensures value { IfOk result (λ n. n ≡ z) }
    ensures fits { OnOk result (in_signed32 z ≡ true) }
    ensures number { IfErr result (λ refusal. refusal_number refusal ≡ 9) }
    ensures outside { OnErr result (in_signed32 z ≡ false) }
{
    i32::try_from(z).map_err(|_| Refusal::NoPlane)
}

// What has a plane where its numbers fit 32 bits: vertices and values in range, and a doubled area above 0.
#[derive(Clone, Copy)]
struct Solvable {
    corners: Corners,
    values: Values,
    area: i64,
    ghost in_range: { values_in_range values ≡ true },
    ghost is_area: { area ≡ doubled_area corners.vertices },
    ghost positive: { pos 0 <ℤ doubled_area corners.vertices },
}

impl Solvable {
    #[tactic(auto, using(crate::proofs::Answers::six_first, crate::proofs::Answers::nine_by_values, crate::proofs::Answers::nine_by_area))]
    fn new(vertices: Vertices, values: Values) -> Result<Solvable, Refusal>
        ensures vertices { IfOk result (λ s. s.corners.vertices ≡ vertices) }
        ensures values { IfOk result (λ s. s.values ≡ values) }
        ensures refuses { IfErr result (λ refusal. refusal_number refusal ≡ through_number vertices values) }
    {
        let corners = Corners::new(vertices).ok_or(Refusal::VertexOutOfRange)?;
        if !values_in_range(values) {
            return Err(Refusal::NoPlane);
        }
        let area = doubled_area(corners);
        if area <= 0 {
            return Err(Refusal::NoPlane);
        }
        Ok(Solvable {
            corners,
            values,
            area,
        })
    }

    fn numerator_a(self) -> i64
        ensures { result ≡ numerator_a self.corners.vertices self.values }
    {
        let Vertices { y1, y2, y3, .. } = self.corners.vertices;
        let Values { r1, r2, r3 } = self.values;
        determinant(r1, r2, r3, y1, y2, y3)
    }

    fn numerator_b(self) -> i64
        ensures { result ≡ numerator_b self.corners.vertices self.values }
    {
        let Vertices { x1, x2, x3, .. } = self.corners.vertices;
        let Values { r1, r2, r3 } = self.values;
        determinant(x1, x2, x3, r1, r2, r3)
    }

    // At the sample point of pixel (0, 0): the first value, and the way there from the first vertex.
    fn numerator(self) -> i64
        ensures { result ≡ numerator self.corners.vertices self.values (sample 0 0) }
    {
        let right = SAMPLE_OFFSET - self.corners.vertices.x1 as i64;
        let down = SAMPLE_OFFSET - self.corners.vertices.y1 as i64;
        self.values.r1 as i64 * self.area + self.numerator_a() * right + self.numerator_b() * down
    }

    // Over the doubled area, in units, rounded down.
    fn over_area(self, n: i64) -> i64
        requires { nat_abs n ≤ 52792126865408 }
        ensures { result ≡ rounded_down (in_units n) (doubled_area self.corners.vertices) }
    {
        rounded_down(65536 * n, self.area)
    }

    fn c(self) -> i64
        ensures { result ≡ through_c self.corners.vertices self.values }
    {
        self.over_area(self.numerator()) + RAISE
    }

    fn a(self) -> i64
        ensures { result ≡ through_a self.corners.vertices self.values }
    {
        self.over_area(8 * self.numerator_a())
    }

    fn b(self) -> i64
        ensures { result ≡ through_b self.corners.vertices self.values }
    {
        self.over_area(8 * self.numerator_b())
    }

    fn plane(self) -> Result<Plane, Refusal>
        ensures { PassesThrough self.corners.vertices self.values (through_of result) }
    {
        Ok(Plane {
            c: signed32(self.c())?,
            a: signed32(self.a())?,
            b: signed32(self.b())?,
        })
    }
}

// Works out the plane, or refuses.
pub fn plane_through(v: Vertices, r: Values) -> Result<Plane, Refusal>
    ensures { PassesThrough v r (through_of result) }
{
    Solvable::new(v, r)?.plane()
}

// A client of the drawing: a screen cleared and two triangles drawn on it, by calls. Its proofs stand on published promises alone.
#![tactic(auto)]

ghost use Rattle.std.specs.Prelude.{◌≡◌, true, length};
ghost use Rattle.rules.specs.Answers.{number_of};
ghost use Rattle.rules.specs.Sizes.{pixel};
ghost use Rattle.rules.specs.Numbers.{screen_number, vertex_in_range, vertices_in_range};
ghost use Rattle.client.specs.Pair.{CanPair, PairPainted, Pairs, pair_number, scene};

use draw::triangles::draw;
use reader::row_check;
use rules::{Refusal, Screen, Triangle, Vertices};
use screen::clear::clear;

fn vertex_in_range(v: i32) -> bool
    ensures { result ≡ vertex_in_range v }
{
    (-8192..=8191).contains(&v)
}

fn vertices_in_range(v: Vertices) -> bool
    ensures { result ≡ vertices_in_range v }
{
    vertex_in_range(v.x1)
        & vertex_in_range(v.y1)
        & vertex_in_range(v.x2)
        & vertex_in_range(v.y2)
        & vertex_in_range(v.x3)
        & vertex_in_range(v.y3)
}

// Row 0 is refused exactly where the screen is.
#[tactic(auto, using(crate::proofs::Drawn::pair_refused, crate::proofs::Drawn::pair_numbered))]
fn pair_check(ram: &[u8], s: Screen, a: Triangle, b: Triangle) -> Result<(), Refusal>
    ensures { number_of result ≡ pair_number (length ram.now) s a b }
{
    row_check(ram, s, 0)?;
    if vertices_in_range(a.vertices) && vertices_in_range(b.vertices) {
        Ok(())
    } else {
        Err(Refusal::VertexOutOfRange)
    }
}

// None of the three calls refuses.
fn draw_pair(ram: &mut [u8], s: Screen, a: Triangle, b: Triangle, colour: u16, depth: u16)
    requires { CanPair (length ram.old) s a b }
    ensures { PairPainted s (scene (pixel colour depth) a b) ram.old ram.new }
{
    clear(ram, s, colour, depth).unwrap();
    draw(ram, s, a).unwrap();
    draw(ram, s, b).unwrap();
}

// Judged first, so that a refusal changes nothing.
#[tactic(auto, using(crate::proofs::Drawn::can_pair))]
pub fn pair(
    ram: &mut [u8],
    s: Screen,
    a: Triangle,
    b: Triangle,
    colour: u16,
    depth: u16,
) -> Result<(), Refusal>
    ensures { Pairs ram.old s (scene (pixel colour depth) a b) (number_of result) ram.new }
{
    pair_check(ram, s, a, b)?;
    draw_pair(ram, s, a, b, colour, depth);
    Ok(())
}

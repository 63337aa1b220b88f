// The call that draws a triangle.
ghost use Rattle.std.specs.Prelude.{◌≡◌};
ghost use Rattle.rules.specs.Answers.{drawn_of, number_of};
ghost use Rattle.rules.specs.Calls.{Draws};
ghost use Rattle.rules.specs.Numbers.{triangle_number};

use crate::frames::frame;
use crate::narrow::narrow;
use crate::touched::lone_column;
use edges::corners::Corners;
use edges::ranges::triangle_too_large;
use rules::{Counts, Refusal, Screen, Triangle};
use screen::sizes::{height, screen_check, width};

// What drawing this triangle refuses.
#[tactic(auto, using(crate::proofs::Refused::screen_decides, crate::proofs::Refused::vertices_refused, crate::proofs::Refused::some_columns, crate::proofs::Refused::columns, crate::proofs::Refused::some_rows, crate::proofs::Refused::size_refused, crate::proofs::Refused::all_passed))]
fn triangle_check(len: usize, s: Screen, t: Triangle) -> Result<(), Refusal>
    ensures { number_of result ≡ triangle_number len s t }
{
    screen_check(len, s)?;
    let corners = Corners::new(t.vertices).ok_or(Refusal::VertexOutOfRange)?;
    if triangle_too_large(corners, width(s.size), height(s.size)) {
        return Err(Refusal::EdgeTooLarge);
    }
    Ok(())
}

// Draws a triangle, or refuses it and changes nothing.
// Compiled into each of its two callers: called, it takes 4 instructions more for a full-screen pixel.
#[tactic(auto, using(crate::proofs::Refused::refused_draws, crate::proofs::Refused::frame_asked, crate::proofs::Refused::narrow_asked, crate::proofs::Refused::done_draws))]
#[inline(always)]
pub fn draw(ram: &mut [u8], s: Screen, t: Triangle) -> Result<Counts, Refusal>
    ensures { Draws ram.old s t (drawn_of result) ram.new }
{
    triangle_check(ram.len(), s, t)?;
    Ok(match lone_column(t.vertices, width(s.size)) {
        Some(x) => narrow(ram, s, t, x),
        None => frame(ram, s, t),
    })
}

// The planes' values at a pixel, two planes to a word of 64 bits, and their steps to the right.
#![tactic(auto)]

ghost use Rattle.std.specs.Prelude.{◌≡◌};
ghost use Rattle.planes.specs.Planes.{pair_of, pair_at, tints_at, tint_steps, tints_moved, tint_depth, tint_colour};

use rules::{Plane, Triangle};
use words::{bits32, pair, pair_times};

// One number of each of two planes. Of the lower plane only bits 16 to 20 are drawn: reduced, it never carries into the upper one.
#[tactic(auto, unfolding(crate::specs::Planes::pair_of))]
fn pair_of(high: i32, low: i32) -> u64
    ensures { result ≡ pair_of high low }
{
    pair(bits32(high), bits32(low) % 2097152)
}

// Two planes at a pixel.
#[tactic(auto, unfolding(crate::specs::Planes::pair_at))]
fn pair_at(high: Plane, low: Plane, x: u32, y: u32) -> u64
    ensures { result ≡ pair_at high low x y }
{
    let across = pair_times(pair_of(high.a, low.a), x);
    let down = pair_times(pair_of(high.b, low.b), y);
    pair_of(high.c, low.c)
        .wrapping_add(down)
        .wrapping_add(across)
}

// The values of the four planes at a pixel, two to a word: depth (z) above blue, green above red.
#[derive(Clone, Copy)]
pub struct Tints {
    pub zb: u64,
    pub gr: u64,
}

impl Tints {
    // A triangle's at a pixel.
    pub fn at(t: Triangle, x: u32, y: u32) -> Self
        ensures { result ≡ tints_at t x y }
    {
        Tints {
            zb: pair_at(t.depth, t.blue, x, y),
            gr: pair_at(t.green, t.red, x, y),
        }
    }

    // Those a pixel further right.
    pub fn right(self, t: Triangle) -> Self
        ensures { result ≡ tints_moved self (tint_steps t) }
    {
        Tints {
            zb: self.zb.wrapping_add(pair_of(t.depth.a, t.blue.a)),
            gr: self.gr.wrapping_add(pair_of(t.green.a, t.red.a)),
        }
    }

    // The depth half-word.
    pub fn depth(self) -> u16
        ensures { result ≡ tint_depth self }
    {
        (self.zb >> 48) as u16
    }

    // The colour half-word.
    pub fn colour(self) -> u16
        ensures { result ≡ tint_colour self }
    {
        let red = self.gr / 65536 % 32;
        let green = self.gr / 281474976710656 % 64;
        let blue = self.zb / 65536 % 32;
        (red * 2048 + green * 32 + blue) as u16
    }
}

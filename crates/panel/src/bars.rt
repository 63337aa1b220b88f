// A bar: its corners, and its two triangles in one colour.
ghost use Rattle.std.specs.Prelude.{◌≡◌, ◌+◌, ◌*◌, ◌<◌, pos};
ghost use Rattle.waveform.specs.Bars.{bar, flat, in_colour, lower, lower_half, upper, upper_half};

use rules::{Plane, Triangle, Vertices};

// A plane with one value everywhere.
fn flat(v: u32) -> Plane
    requires { v < 64 }
    ensures { result ≡ flat v }
{
    Plane {
        c: (v * 65536) as i32,
        a: 0,
        b: 0,
    }
}

// A triangle in one colour, with depth 0.
#[tactic(auto, unfolding(waveform::specs::Bars::in_colour))]
fn in_colour(colour: u16, v: Vertices) -> Triangle
    ensures { result ≡ in_colour colour v }
{
    let c = colour as u32;
    Triangle {
        vertices: v,
        depth: flat(0),
        red: flat(c / 2048),
        green: flat(c / 32 % 64),
        blue: flat(c % 32),
    }
}

// Column x, from row `top` to row `bottom`, within the largest screen.
#[derive(Clone, Copy)]
pub struct Bar {
    pub x: u32,
    pub top: u32,
    pub bottom: u32,
    pub colour: u16,
    pub ghost across: { x < 640 },
    pub ghost above: { top < 480 },
    pub ghost below: { bottom < 480 },
}

impl Bar {
    // Its sides, in eighths.
    fn left(self) -> i32
        ensures { result ≡ pos (8 * self.x) }
    {
        (8 * self.x) as i32
    }

    fn right(self) -> i32
        ensures { result ≡ pos (8 * self.x + 8) }
    {
        (8 * self.x + 8) as i32
    }

    fn high(self) -> i32
        ensures { result ≡ pos (8 * self.top) }
    {
        (8 * self.top) as i32
    }

    fn low(self) -> i32
        ensures { result ≡ pos (8 * self.bottom + 8) }
    {
        (8 * self.bottom + 8) as i32
    }

    // The half with its left top, right top and right bottom, in this order: clockwise, so that it is drawn.
    #[tactic(auto, unfolding(waveform::specs::Bars::upper_half))]
    fn upper_half(self) -> Vertices
        ensures { result ≡ upper_half self.x self.top self.bottom }
    {
        Vertices {
            x1: self.left(),
            y1: self.high(),
            x2: self.right(),
            y2: self.high(),
            x3: self.right(),
            y3: self.low(),
        }
    }

    // The other half: right bottom, left bottom, left top. It runs along the diagonal the other way.
    #[tactic(auto, unfolding(waveform::specs::Bars::lower_half))]
    fn lower_half(self) -> Vertices
        ensures { result ≡ lower_half self.x self.top self.bottom }
    {
        Vertices {
            x1: self.right(),
            y1: self.low(),
            x2: self.left(),
            y2: self.low(),
            x3: self.left(),
            y3: self.high(),
        }
    }

    pub fn upper(self) -> Triangle
        ensures { result ≡ upper (bar self.x self.top self.bottom self.colour) }
    {
        in_colour(self.colour, self.upper_half())
    }

    pub fn lower(self) -> Triangle
        ensures { result ≡ lower (bar self.x self.top self.bottom self.colour) }
    {
        in_colour(self.colour, self.lower_half())
    }
}

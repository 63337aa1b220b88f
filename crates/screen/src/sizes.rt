ghost use Rattle.std.specs.Prelude.{◌*◌, ◌^◌, ◌<◌, ◌≡◌};
ghost use Rattle.rules.specs.Answers.{number_of};
ghost use Rattle.rules.specs.Numbers.{screen_number, too_long};
ghost use Rattle.rules.specs.Sizes.{area, colour_at, depth_at, height, size_in_range, sound, sound_areas, width};
ghost use Rattle.screen.specs.Areas.{stands_at};

use rules::{Refusal, Screen};

pub fn width(size: u32) -> u32
    ensures { result ≡ width size }
{
    size / 512 * 16
}

pub fn height(size: u32) -> u32
    ensures { result ≡ height size }
{
    size % 512
}

// In 64 bits: the size number may be out of range.
pub fn pixel_count(size: u32) -> usize
    ensures { result ≡ width size * height size }
{
    width(size) as usize * height(size) as usize
}

#[tactic(auto, using(crate::proofs::Bounds::area_small))]
fn area(size: u32) -> u64
    ensures is_area { result ≡ area size }
    ensures small { result < 2 ^ 37 }
{
    pixel_count(size) as u64 * 2
}

fn size_in_range(size: u32) -> bool
    ensures { result ≡ size_in_range size }
{
    (1..=40).contains(&(size / 512)) && (1..=480).contains(&(size % 512))
}

// In 64 bits, so that a start near 2^32 plus an area does not wrap.
#[tactic(auto, unfolding(rules::specs::Sizes::sound_areas))]
fn sound_areas(len: usize, s: Screen) -> bool
    ensures { result ≡ sound_areas len s }
{
    let bytes = area(s.size);
    let colour_end = s.colour as u64 + bytes;
    let depth_end = s.depth as u64 + bytes;
    s.colour % 2 == 0
        && s.depth % 2 == 0
        && colour_end <= len as u64
        && depth_end <= len as u64
        && (colour_end <= s.depth as u64 || depth_end <= s.colour as u64)
}

#[tactic(auto, unfolding(rules::specs::Sizes::sound))]
pub fn sound(len: usize, s: Screen) -> bool
    ensures { result ≡ sound len s }
{
    size_in_range(s.size) && sound_areas(len, s)
}

pub fn too_long(len: usize) -> bool
    ensures { result ≡ too_long len }
{
    4194304 < len
}

// What a call that asks for nothing but a sound screen refuses.
#[tactic(auto, unfolding(rules::specs::Numbers::screen_number))]
pub fn screen_check(len: usize, s: Screen) -> Result<(), Refusal>
    ensures { number_of result ≡ screen_number len s }
{
    if too_long(len) {
        Err(Refusal::RamTooLong)
    } else if sound(len, s) {
        Ok(())
    } else {
        Err(Refusal::UnsoundScreen)
    }
}

// Where pixel (x, y) stands in an area that starts at `start`. In 64 bits nothing wraps, on any screen.
fn stands_at(start: u32, size: u32, x: u32, y: u32) -> usize
    ensures { result ≡ stands_at start size x y }
{
    start as usize + (y as usize * width(size) as usize + x as usize) * 2
}

#[tactic(auto, unfolding(rules::specs::Sizes::colour_at))]
pub fn colour_at(s: Screen, x: u32, y: u32) -> usize
    ensures { result ≡ colour_at s x y }
{
    stands_at(s.colour, s.size, x, y)
}

#[tactic(auto, unfolding(rules::specs::Sizes::depth_at))]
pub fn depth_at(s: Screen, x: u32, y: u32) -> usize
    ensures { result ≡ depth_at s x y }
{
    stands_at(s.depth, s.size, x, y)
}

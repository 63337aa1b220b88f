// A pixel, and the pixels that a word of 64 bits enables.
ghost use Rattle.std.specs.Prelude.{◌+◌, ◌<◌, length};
ghost use Rattle.rows.specs.Lines.{writing};
ghost use Rattle.rows.specs.Pixels.{PixelDone, WordAsked, WordDone};

use crate::Line;
use planes::Tints;
use ram::{load_half, store_half};
use screen::sizes::{colour_at, depth_at};

// One covered pixel, written where its depth is at most the stored one. It answers the number given, and one more where it was written.
pub fn pixel(ram: &mut [u8], colour: usize, depth: usize, v: Tints, written: u32) -> u32
    requires colour { colour + 1 < length ram.old }
    requires depth { depth + 1 < length ram.old }
    requires room { written < 4294967295 }
    ensures { PixelDone colour depth v (writing ram.old written) (writing ram.new result) }
{
    let z = v.depth();
    if load_half(ram, depth) < z {
        return written;
    }
    // before the colour: stored after it, the depth costs registers
    store_half(ram, depth, z);
    store_half(ram, colour, v.colour());
    written + 1
}

// The pixels whose bit is set in `wide`, which has a bit for each of 64 columns from a's group on; a's is the first that is set.
// It answers the number given and how many were written.
pub fn enabled(ram: &mut [u8], line: Line, a: u32, wide: u64, given: u32) -> u32
    requires { WordAsked line a wide (writing ram.old given) }
    ensures { WordDone line a (writing ram.old given) (writing ram.new result) }
{
    let colour = colour_at(line.screen, a, line.row);
    let depth = depth_at(line.screen, a, line.row);
    let on = wide << (a % 16);
    let mut v = Tints::at(line.triangle, a, line.row);
    let mut written = given;
    for i in 0..on.leading_ones() as usize {
        written = pixel(ram, colour + 2 * i, depth + 2 * i, v, written);
        v = v.right(line.triangle);
    }
    written
}

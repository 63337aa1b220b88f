// A row, in chunks of 64 columns: each chunk is counted and drawn by its four groups' masks.
ghost use Rattle.rows.specs.Lines.{drawing};
ghost use Rattle.rows.specs.Rows.{ChunkAsked, ChunkDone, RowAsked, RowDone};

use crate::Line;
use crate::pixels::enabled;
use masks::Masks;
use rules::Counts;
use std::ops::Range;

// Four groups side by side, a's and those to its right, by their masks alone: the ones are counted, as 01 counts, and the pixels drawn.
fn chunk(ram: &mut [u8], line: Line, a: u32, m: Masks, given: Counts) -> Counts
    requires { ChunkAsked line a m (drawing ram.old given) }
    ensures { ChunkDone line a (drawing ram.old given) (drawing ram.new result) }
{
    let covered = given.covered + m.ones();
    let written = enabled(ram, line, a, m.word(), given.written);
    Counts { covered, written }
}

// A row whose covered pixels are those of the columns. It adds to the counts given.
pub fn row(ram: &mut [u8], line: Line, columns: Range<u32>, given: Counts) -> Counts
    requires { RowAsked line columns (drawing ram.old given) }
    ensures { RowDone line (drawing ram.old given) (drawing ram.new result) }
{
    let mut a = columns.start;
    let mut c = given;
    while a < columns.end {
        let first = a % 16;
        let past = (first + (columns.end - a)).min(64);
        c = chunk(ram, line, a, Masks::of_span(first, past), c);
        a = a - first + 64;
    }
    c
}

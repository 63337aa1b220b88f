// The row reader: whether a request is refused, where a row's own bytes stand, and the bytes themselves, of colours and of depths.
#![tactic(auto)]

ghost use Rattle.std.specs.Prelude.{◌≡◌, length};
ghost use Rattle.rules.specs.Answers.{number_of};
ghost use Rattle.rules.specs.Sizes.{colour_at, depth_at};
ghost use Rattle.reader.specs.Parts.{part_of, place_in};
ghost use Rattle.reader.specs.Rows.{Checks, HandsBack, Locates};

use rules::{Refusal, Screen};
use screen::sizes::{colour_at, depth_at, height, screen_check, width};
use std::ops::Range;

// Where a row's own bytes stand, for languages that cannot take a reference as an answer.
#[repr(C)]
#[derive(Clone, Copy)]
pub struct RowPart {
    pub number: u32,
    pub start: u64,
    pub length: u64,
}

impl From<Result<Range<usize>, Refusal>> for RowPart {
    ghost from_gives = { λ answer part. part ≡ part_of answer };

    fn from(answer: Result<Range<usize>, Refusal>) -> RowPart {
        match answer {
            Ok(bytes) => RowPart {
                number: 0,
                start: bytes.start as u64,
                length: bytes.len() as u64,
            },
            Err(refusal) => RowPart {
                number: u32::from(refusal),
                start: 0,
                length: 0,
            },
        }
    }
}

// 3 and 5 go first, as on every call that takes a screen.
#[tactic(auto, unfolding(rules::specs::Numbers::screen_number, rules::specs::Numbers::row_number))]
pub fn row_check(ram: &[u8], s: Screen, row: u32) -> Result<(), Refusal>
    ensures { Checks (length ram.now) s row (number_of result) }
{
    screen_check(ram.len(), s)?;
    if row < height(s.size) {
        Ok(())
    } else {
        Err(Refusal::NoSuchRow)
    }
}

// One of a screen's two areas.
#[derive(Clone, Copy)]
enum Area {
    Colours,
    Depths,
}

impl Area {
    // Where a row begins in it.
    fn row_start(self, s: Screen, row: u32) -> usize
        ensures { result ≡ place_in self s 0 row }
    {
        match self {
            Area::Colours => colour_at(s, 0, row),
            Area::Depths => depth_at(s, 0, row),
        }
    }

    #[tactic(auto, using(crate::proofs::RowBounds::row_within), unfolding(rules::specs::Calls::part_start, rules::specs::Calls::row_length))]
    fn row_part(self, ram: &[u8], s: Screen, row: u32) -> Result<Range<usize>, Refusal>
        ensures { Locates (place_in self) (length ram.now) s row (part_of result) }
    {
        row_check(ram, s, row)?;
        let start = self.row_start(s, row);
        Ok(start..start + 2 * width(s.size) as usize)
    }
}

pub fn row_part(ram: &[u8], s: Screen, row: u32) -> Result<Range<usize>, Refusal>
    ensures { Locates colour_at (length ram.now) s row (part_of result) }
{
    Area::Colours.row_part(ram, s, row)
}

pub fn depth_row_part(ram: &[u8], s: Screen, row: u32) -> Result<Range<usize>, Refusal>
    ensures { Locates depth_at (length ram.now) s row (part_of result) }
{
    Area::Depths.row_part(ram, s, row)
}

// The row's own colour bytes, a part of `ram` and not a copy; none where the row is refused.
#[tactic(auto, using(crate::proofs::RowBounds::colours_within, crate::proofs::RowBounds::row_wide), unfolding(rules::specs::Calls::part_start, rules::specs::Calls::row_length, rules::specs::Calls::part_bytes))]
pub fn row<'a>(ram: &'a [u8], s: Screen, row: u32) -> &'a [u8]
    ensures { HandsBack colour_at ram.entry s row result }
{
    &ram[row_part(ram, s, row).unwrap_or(0..0)]
}

// The row's own depth bytes, likewise.
#[tactic(auto, using(crate::proofs::RowBounds::depths_within, crate::proofs::RowBounds::row_wide), unfolding(rules::specs::Calls::part_start, rules::specs::Calls::row_length, rules::specs::Calls::part_bytes))]
pub fn depth_row<'a>(ram: &'a [u8], s: Screen, row: u32) -> &'a [u8]
    ensures { HandsBack depth_at ram.entry s row result }
{
    &ram[depth_row_part(ram, s, row).unwrap_or(0..0)]
}

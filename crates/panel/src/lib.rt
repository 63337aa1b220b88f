// The waveform panel: a bar for each column of the screen, drawn by the drawing's call. Of the drawing its proofs know published promises
// alone.
#![tactic(auto)]

mod bars;
mod waveforms;

ghost use Rattle.std.specs.Prelude.{◌≡◌, ◌<◌, length};
ghost use Rattle.rules.specs.Numbers.{screen_number};
ghost use Rattle.rules.specs.Sizes.{pixel, width};
ghost use Rattle.waveform.specs.Answers.{panelled_of};
ghost use Rattle.waveform.specs.Panel.{Panels, waveform};
ghost use Rattle.waveform.specs.Bars.{BarFits, in_bar};
ghost use Rattle.panel.specs.Columns.{ColumnDrawn, PanelDrawn, PixelsDrawn, asked, bar_of};

use crate::bars::Bar;
use crate::waveforms::Waveform;
use draw::triangles::draw;
use reader::row_check;
use rules::{Refusal, Screen};
use samples::{ends, reached, row_of};
use screen::sizes::{height, width};

// Two triangles, which run along their common diagonal in opposite directions.
fn fill(ram: &mut [u8], s: Screen, b: Bar) -> u32
    requires { BarFits (length ram.old) s (bar_of b) }
    ensures { PixelsDrawn s (in_bar (bar_of b)) (λ _ _. pixel b.colour 0) ram.old result ram.new }
{
    let one = draw(ram, s, b.upper()).unwrap();
    let other = draw(ram, s, b.lower()).unwrap();
    one.covered + other.covered
}

// Column x: nothing where it has no samples.
fn column(ram: &mut [u8], s: Screen, w: Waveform<'_>, x: u32) -> u32
    requires screen { screen_number (length ram.old) s ≡ 0 }
    requires across { x < width s.size }
    ensures { ColumnDrawn s (asked w.entry) x ram.old result ram.new }
{
    let numbers = reached(w.samples.len(), w.n, w.d, x);
    if numbers.is_empty() {
        return 0;
    }
    let e = ends(w.samples, numbers);
    let h = height(s.size);
    let bar = Bar {
        x,
        top: row_of(e.largest, h),
        bottom: row_of(e.smallest, h),
        colour: w.colour,
    };
    fill(ram, s, bar)
}

// All columns, from the left.
fn columns(ram: &mut [u8], s: Screen, w: Waveform<'_>) -> u32
    requires { screen_number (length ram.old) s ≡ 0 }
    ensures { PanelDrawn s (asked w.entry) ram.old result ram.new }
{
    let mut pixels = 0;
    for x in 0..width(s.size) {
        pixels += column(ram, s, w, x);
    }
    pixels
}

// Judged first, so that a refusal draws nothing. Row 0 is refused exactly where the screen is.
#[tactic(auto, using(crate::proofs::Answers::screen_passes))]
pub fn panel(
    ram: &mut [u8],
    s: Screen,
    samples: &[i16],
    n: i32,
    d: i32,
    colour: u16,
) -> Result<u32, Refusal>
    ensures { Panels ram.old s (waveform samples.now n d colour) (panelled_of result) ram.new }
{
    row_check(ram, s, 0)?;
    let asked = Waveform::new(samples, n, d, colour).ok_or(Refusal::PanelOutOfRange)?;
    Ok(columns(ram, s, asked))
}

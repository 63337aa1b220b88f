// Which samples a column has, the largest and the smallest of them, and the rows at which they stand.
#![tactic(auto)]

ghost use Rattle.std.specs.Prelude.{◌≡◌, true, ◌≤◌, ◌<◌, length};
ghost use Rattle.waveform.specs.Panel.{good_waveform, row_of};
ghost use Rattle.samples.specs.Reached.{Clamps, EndsBetween, Reaches};

use std::ops::Range;

// k as a number of samples: 0 where it is below that, and `count` where there are fewer.
fn clamped(k: i32, count: usize) -> usize
    requires { count ≤ 40960 }
    ensures { Clamps k count result }
{
    // a branch: by `max` a column without samples takes 35 instructions in place of 22
    if k < 0 {
        return 0;
    }
    (k as usize).min(count)
}

// The samples that column x takes, cut to those that there are.
pub fn reached(count: usize, n: i32, d: i32, x: u32) -> Range<usize>
    requires good { good_waveform count n d ≡ true }
    requires across { x < 640 }
    ensures { Reaches count n d x result }
{
    let first = x as i32 * n + d;
    clamped(first, count)..clamped(first + n, count)
}

// The largest and the smallest of some samples.
#[derive(Clone, Copy)]
pub struct Extremes {
    pub largest: i16,
    pub smallest: i16,
}

// The ends of the samples with numbers in a range.
pub fn ends(samples: &[i16], numbers: Range<usize>) -> Extremes
    requires some { numbers.start < numbers.end }
    requires exist { numbers.end ≤ length samples.now }
    ensures { EndsBetween samples.now numbers.start numbers.end result }
{
    let first = samples[numbers.start];
    let mut largest = first;
    let mut smallest = first;
    for &v in &samples[numbers.start + 1..numbers.end] {
        largest = largest.max(v);
        smallest = smallest.min(v);
    }
    Extremes { largest, smallest }
}

// The row at which a sample stands.
#[tactic(auto, unfolding(waveform::specs::Panel::row_of))]
pub fn row_of(v: i16, height: u32) -> u32
    requires { height ≤ 480 }
    ensures { result ≡ row_of height v }
{
    (32767 - v as i32) as u32 * height / 65536
}

// What is asked for, where it is not refused.
ghost use Rattle.std.specs.Prelude.{◌≡◌, true, false, length, IfNone, IfSome};
ghost use Rattle.waveform.specs.Panel.{good_waveform, waveform};

// Samples, how many to a column, an offset and a colour, in range.
#[derive(Clone, Copy)]
pub struct Waveform<'a> {
    pub samples: &'a [i16],
    pub n: i32,
    pub d: i32,
    pub colour: u16,
    pub ghost good: { good_waveform (length samples.now) n d ≡ true },
}

impl<'a> Waveform<'a> {
    // Exactly where the count, n and the offset are in range: number 10.
    #[tactic(auto, unfolding(waveform::specs::Panel::good_waveform))]
    pub fn new(samples: &'a [i16], n: i32, d: i32, colour: u16) -> Option<Waveform<'a>>
        ensures some { IfSome result (λ w. waveform w.samples.now w.n w.d w.colour ≡ waveform samples.now n d colour) }
        ensures none { IfNone result (good_waveform (length samples.now) n d ≡ false) }
    {
        if samples.len() <= 40960 && (1..=64).contains(&n) && (-2048..=2047).contains(&d) {
            Some(Waveform {
                samples,
                n,
                d,
                colour,
            })
        } else {
            None
        }
    }
}

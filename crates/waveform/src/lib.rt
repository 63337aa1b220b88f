// What a waveform panel answers, in the words of document 02.
#![tactic(auto)]

ghost use Rattle.std.specs.Prelude.{◌≡◌};
ghost use Rattle.waveform.specs.Answers.{panelled_of};

use rules::Refusal;

// The number, and how many pixels were drawn, as C has it.
#[repr(C)]
#[derive(Clone, Copy)]
pub struct Panelled {
    pub number: u32,
    pub pixels: u32,
}

impl From<Result<u32, Refusal>> for Panelled {
    ghost from_gives = { λ answer panelled. panelled ≡ panelled_of answer };

    fn from(answer: Result<u32, Refusal>) -> Panelled {
        match answer {
            Ok(pixels) => Panelled { number: 0, pixels },
            Err(refusal) => Panelled {
                number: u32::from(refusal),
                pixels: 0,
            },
        }
    }
}

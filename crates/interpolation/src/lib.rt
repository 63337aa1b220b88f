// What the plane through three values is given and answers, in the words of document 02.
#![tactic(auto)]

ghost use Rattle.std.specs.Prelude.{◌≡◌};
ghost use Rattle.interpolation.specs.Answers.{through_of};

use rules::{Plane, Refusal};

// A whole value at each of three vertices.
#[repr(C)]
#[derive(Clone, Copy)]
pub struct Values {
    pub r1: i32,
    pub r2: i32,
    pub r3: i32,
}

// What the plane through three values answers, as C has it.
#[repr(C)]
#[derive(Clone, Copy)]
pub struct Through {
    pub number: u32,
    pub plane: Plane,
}

impl From<Result<Plane, Refusal>> for Through {
    ghost from_gives = { λ answer through. through ≡ through_of answer };

    fn from(answer: Result<Plane, Refusal>) -> Through {
        match answer {
            Ok(plane) => Through { number: 0, plane },
            Err(refusal) => Through {
                number: u32::from(refusal),
                plane: Plane { c: 0, a: 0, b: 0 },
            },
        }
    }
}

// The plain data that the calls take and answer, in the words of document 01.
#![tactic(auto)]

ghost use Rattle.std.specs.Prelude.{◌≡◌};
ghost use Rattle.rules.specs.Answers.{drawn_of, number_of, refusal_number};

use std::error::Error;
use std::fmt;

// A screen: where its colours and its depths start in the RAM, and its size number S.
#[repr(C)]
#[derive(Clone, Copy)]
pub struct Screen {
    pub colour: u32,
    pub depth: u32,
    pub size: u32,
}

// A plane has c + a·x + b·y at pixel (x, y).
#[repr(C)]
#[derive(Clone, Copy)]
pub struct Plane {
    pub c: i32,
    pub a: i32,
    pub b: i32,
}

// Three vertices in eighths of a pixel, x to the right, y downward.
#[repr(C)]
#[derive(Clone, Copy)]
pub struct Vertices {
    pub x1: i32,
    pub y1: i32,
    pub x2: i32,
    pub y2: i32,
    pub x3: i32,
    pub y3: i32,
}

// Three vertices and four planes.
#[repr(C)]
#[derive(Clone, Copy)]
pub struct Triangle {
    pub vertices: Vertices,
    pub depth: Plane,
    pub red: Plane,
    pub green: Plane,
    pub blue: Plane,
}

// Why a call refuses. As a number it is that of document 01, "Numbers a call answers".
#[derive(Clone, Copy, Debug, PartialEq, Eq)]
pub enum Refusal {
    ProgramTooLong = 1,
    WrongDataMemory = 2,
    RamTooLong = 3,
    IllFormedState = 4,
    UnsoundScreen = 5,
    VertexOutOfRange = 6,
    EdgeTooLarge = 7,
    NoSuchRow = 8,
    NoPlane = 9,
    PanelOutOfRange = 10,
}

impl From<Refusal> for u32 {
    ghost from_gives = { λ refusal number. number ≡ refusal_number refusal };

    fn from(refusal: Refusal) -> u32 {
        refusal as u32
    }
}

// The sentences of docs/RULES.md, 2.2.
impl fmt::Display for Refusal {
    fn fmt<W: fmt::Write>(&self, f: &mut fmt::Formatter<W>) -> fmt::Result {
        f.write_str(match self {
            Refusal::ProgramTooLong => "the program is longer than 1,024 words",
            Refusal::WrongDataMemory => "the data memory is not of 1,024 words",
            Refusal::RamTooLong => "the RAM is longer than 4,194,304 bytes",
            Refusal::IllFormedState => "the machine state is ill-formed",
            Refusal::UnsoundScreen => "the screen is not sound",
            Refusal::VertexOutOfRange => "a vertex number is outside -8192..8191",
            Refusal::EdgeTooLarge =>
                "an edge value at some pixel of the screen is outside signed 32 bits",
            Refusal::NoSuchRow => "the row is not below the height",
            Refusal::NoPlane =>
                "a value is outside 0..32767, the doubled area is not positive, or c, a or b is outside signed 32 bits",
            Refusal::PanelOutOfRange =>
                "there are more than 40,960 samples, the samples a column are outside 1..64, or the offset is outside -2048..2047",
        })
    }
}

impl Error for Refusal {}

// The number of an answer, as C has it: 0 where nothing was refused.
pub fn number_of<T: Drop>(answer: Result<T, Refusal>) -> u32
    ensures { result ≡ number_of answer }
{
    match answer {
        Ok(_) => 0,
        Err(refusal) => u32::from(refusal),
    }
}

// How many pixels were covered and how many written.
#[derive(Clone, Copy)]
pub struct Counts {
    pub covered: u32,
    pub written: u32,
}

// What drawing a triangle answers, as C has it.
#[repr(C)]
#[derive(Clone, Copy)]
pub struct Drawn {
    pub number: u32,
    pub covered: u32,
    pub written: u32,
}

impl From<Result<Counts, Refusal>> for Drawn {
    ghost from_gives = { λ answer drawn. drawn ≡ drawn_of answer };

    fn from(answer: Result<Counts, Refusal>) -> Drawn {
        match answer {
            Ok(Counts { covered, written }) => Drawn {
                number: 0,
                covered,
                written,
            },
            Err(refusal) => Drawn {
                number: u32::from(refusal),
                covered: 0,
                written: 0,
            },
        }
    }
}

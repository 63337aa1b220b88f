// The machine's state, plain data by value, in the words of document 01.
#![tactic(auto)]

ghost use Rattle.std.specs.Prelude.{◌≡◌};
ghost use Rattle.instructions.specs.Answers.{number_of_halt};

use rules::Screen;
use std::error::Error;
use std::fmt;

// A tree: its place, and for each of its sixteen leaves marks I and O, a colour and a depth; whether depths are held.
#[repr(C)]
#[derive(Clone, Copy)]
pub struct Tree {
    pub column: u32,
    pub row: u32,
    pub inside: [bool; 16],
    pub outside: [bool; 16],
    pub colour: [u16; 16],
    pub depth: [u16; 16],
    pub held: bool,
}

// `shown`: it has a screen; `planted`: it has a tree. The fields of an absent screen or tree mean nothing.
#[repr(C)]
#[derive(Clone, Copy)]
pub struct State {
    pub regs: [u32; 32],
    pub place: u32,
    pub negative: bool,
    pub zero: bool,
    pub halt: u32,
    pub shown: bool,
    pub screen: Screen,
    pub planted: bool,
    pub tree: Tree,
}

// Why a step halts. As a number it is that of document 01, "Halts".
#[derive(Clone, Copy, Debug, PartialEq, Eq)]
pub enum Halt {
    NoInstruction = 11,
    PastProgram = 12,
    OutsideData = 13,
    NoTree = 14,
    MoveOutsideData = 15,
    MoveOutsideRam = 16,
    NoScreen = 17,
}

impl From<Halt> for u32 {
    ghost from_gives = { λ halt number. number ≡ number_of_halt halt };

    fn from(halt: Halt) -> u32 {
        halt as u32
    }
}

// The sentences of docs/RULES.md, 11.
impl fmt::Display for Halt {
    fn fmt<W: fmt::Write>(&self, f: &mut fmt::Formatter<W>) -> fmt::Result {
        f.write_str(match self {
            Halt::NoInstruction => "the opcode is above 40",
            Halt::PastProgram =>
                "the place is not below the program's length: the program has ended",
            Halt::OutsideData => "an LD or ST address is above 1,023, or a DOT start above 1,020",
            Halt::NoTree =>
                "TREESET's place is refused, TREEIN, TREEVAL or TREEPUT has no tree, or TREEVAL's imm is above 3",
            Halt::MoveOutsideData => "a READ or WRITE data address is above 1,008",
            Halt::MoveOutsideRam =>
                "a READ or WRITE address is not a multiple of 4, or its 64 bytes are not all in RAM",
            Halt::NoScreen => "SCRSET's screen is not sound, or CLS or TREESET has no screen",
        })
    }
}

impl Error for Halt {}

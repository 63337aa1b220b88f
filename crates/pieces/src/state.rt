// The pieces of a state that is not halted: a step up to WRITE changes the small one, and never the screen and the tree.
ghost use Rattle.std.specs.Prelude.{◌+◌, ◌<◌, ◌≡◌};
ghost use Rattle.pieces.specs.Pieces.{at, cpu_of, joined, screened, treed, view_of};

use instructions::{State, Tree};
use rules::Screen;

#[derive(Clone, Copy)]
pub struct Cpu {
    pub place: u32,
    pub negative: bool,
    pub zero: bool,
}

#[derive(Clone, Copy)]
pub struct View {
    pub shown: bool,
    pub planted: bool,
    pub screen: Screen,
    pub tree: Tree,
}

impl From<&State> for Cpu {
    ghost from_gives = { λ state cpu. cpu ≡ cpu_of state.now };

    fn from(state: &State) -> Cpu {
        Cpu {
            place: state.place,
            negative: state.negative,
            zero: state.zero,
        }
    }
}

impl From<&State> for View {
    ghost from_gives = { λ state view. view ≡ view_of state.now };

    fn from(state: &State) -> View {
        View {
            shown: state.shown,
            planted: state.planted,
            screen: state.screen,
            tree: state.tree,
        }
    }
}

// The pieces put together again, with the number of the halt, 0 for none.
pub fn joined(regs: [u32; 32], cpu: Cpu, halt: u32, view: &View) -> State
    ensures { result ≡ joined regs cpu halt view.now }
{
    State {
        regs,
        place: cpu.place,
        negative: cpu.negative,
        zero: cpu.zero,
        halt,
        shown: view.shown,
        screen: view.screen,
        planted: view.planted,
        tree: view.tree,
    }
}

impl Cpu {
    pub fn jump(&mut self, place: u32)
        ensures { self.new ≡ at place self.old }
    {
        self.place = place;
    }

    // The next place: only a place in the program is stepped from, so the sum fits.
    pub fn onward(&mut self)
        requires { self.old.place < 1024 }
        ensures { self.new ≡ at (self.old.place + 1) self.old }
    {
        self.place += 1;
    }
}

impl View {
    // SCRSET: the tree's fields stay, and mean nothing.
    pub fn show(&mut self, screen: Screen)
        ensures { self.new ≡ screened screen self.old }
    {
        self.shown = true;
        self.planted = false;
        self.screen = screen;
    }

    // TREESET.
    pub fn plant(&mut self, tree: Tree)
        ensures { self.new ≡ treed tree self.old }
    {
        self.planted = true;
        self.tree = tree;
    }
}

// The machine's state as C has it: a flag or a mark is a number, 0 for no and any other for yes, so that every pattern of bits is a state.
#![tactic(auto)]

ghost use Rattle.std.specs.Prelude.{◌≡◌};
ghost use Rattle.border.specs.Lent.{marks_of, bytes_of, tree_of, lent_tree, state_of, lent_state};

use instructions::{State, Tree};
use rules::Screen;
use std::array::from_fn;

#[repr(C)]
#[derive(Clone, Copy)]
pub struct LentTree {
    pub column: u32,
    pub row: u32,
    pub inside: [u8; 16],
    pub outside: [u8; 16],
    pub colour: [u16; 16],
    pub depth: [u16; 16],
    pub held: u32,
}

#[repr(C)]
#[derive(Clone, Copy)]
pub struct LentState {
    pub regs: [u32; 32],
    pub place: u32,
    pub negative: u32,
    pub zero: u32,
    pub halt: u32,
    pub shown: u32,
    pub screen: Screen,
    pub planted: u32,
    pub tree: LentTree,
}

fn marks_of(bytes: [u8; 16]) -> [bool; 16]
    ensures { result ≡ marks_of bytes }
{
    from_fn(|k| bytes[k] != 0)
}

fn bytes_of(marks: [bool; 16]) -> [u8; 16]
    ensures { result ≡ bytes_of marks }
{
    from_fn(|k| u8::from(marks[k]))
}

impl From<LentTree> for Tree {
    ghost from_gives = { λ lent tree. tree ≡ tree_of lent };

    fn from(lent: LentTree) -> Tree {
        let LentTree {
            column,
            row,
            inside,
            outside,
            colour,
            depth,
            held,
        } = lent;
        let inside = marks_of(inside);
        let outside = marks_of(outside);
        Tree {
            column,
            row,
            inside,
            outside,
            colour,
            depth,
            held: held != 0,
        }
    }
}

impl From<Tree> for LentTree {
    ghost from_gives = { λ tree lent. lent ≡ lent_tree tree };

    fn from(tree: Tree) -> LentTree {
        let Tree {
            column,
            row,
            inside,
            outside,
            colour,
            depth,
            held,
        } = tree;
        let inside = bytes_of(inside);
        let outside = bytes_of(outside);
        LentTree {
            column,
            row,
            inside,
            outside,
            colour,
            depth,
            held: u32::from(held),
        }
    }
}

impl From<LentState> for State {
    ghost from_gives = { λ lent state. state ≡ state_of lent };

    fn from(lent: LentState) -> State {
        let LentState { regs, tree, .. } = lent;
        let tree = Tree::from(tree);
        State {
            regs,
            place: lent.place,
            negative: lent.negative != 0,
            zero: lent.zero != 0,
            halt: lent.halt,
            shown: lent.shown != 0,
            screen: lent.screen,
            planted: lent.planted != 0,
            tree,
        }
    }
}

impl From<State> for LentState {
    ghost from_gives = { λ state lent. lent ≡ lent_state state };

    fn from(state: State) -> LentState {
        let State { regs, tree, .. } = state;
        let tree = LentTree::from(tree);
        LentState {
            regs,
            place: state.place,
            negative: u32::from(state.negative),
            zero: u32::from(state.zero),
            halt: state.halt,
            shown: u32::from(state.shown),
            screen: state.screen,
            planted: u32::from(state.planted),
            tree,
        }
    }
}

// The same state, field by field: a copy in one piece would be a call of C's memcpy, which takes longer.
pub fn state_copied(state: LentState) -> LentState
    ensures { result ≡ state }
{
    let regs = state.regs;
    let screen = state.screen;
    let tree = state.tree;
    LentState {
        regs,
        place: state.place,
        negative: state.negative,
        zero: state.zero,
        halt: state.halt,
        shown: state.shown,
        screen,
        planted: state.planted,
        tree,
    }
}

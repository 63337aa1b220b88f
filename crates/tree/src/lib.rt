// What reads or writes the sixteen pixels under a tree: TREEVAL 0 and TREEPUT, leaf by leaf.
#![tactic(auto)]

ghost use Rattle.std.specs.Prelude.{◌+◌, ◌<◌, ◌≡◌, length};
ghost use Rattle.instructions.specs.Tree.{tree_depth, tree_put};
ghost use Rattle.tree.specs.Leaves.{Placed, halves, stored};

use instructions::Tree;
use leaves::leaf_value;
use ram::{load_half, store_half};
use rules::Screen;
use screen::sizes::{colour_at, depth_at};
use std::array::from_fn;

// The leaves' half-words, read before the leaves are judged, so that each is one load and the judging works on arrays alone.
fn load_halves(ram: &[u8], first: usize) -> [u16; 16]
    requires { first + 31 < length ram.now }
    ensures { result ≡ halves ram.now first }
{
    from_fn(|k| load_half(ram, first + 2 * k))
}

// TREEVAL 0. A leaf is judged against the depth that the screen has now, and not against its own.
pub fn tree_depth(ram: &[u8], s: Screen, tree: &mut Tree, a: u32, b: u32)
    requires { Placed (length ram.now) s tree.old }
    ensures { tree.new ≡ tree_depth s ram.now a b tree.old }
{
    let found = load_halves(ram, depth_at(s, tree.column, tree.row));
    let depth: [u16; 16] = from_fn(|k| (leaf_value(a, b, k) / 65536) as u16);
    tree.inside = from_fn(|k| tree.inside[k] & !(found[k] < depth[k]));
    tree.outside = from_fn(|k| tree.outside[k] | (found[k] < depth[k]));
    tree.depth = depth;
    tree.held = true;
}

// One leaf: `c` goes to the half-word at `colour`, and `d` to that at `depth` only where depths are held.
#[tactic(auto, unfolding(crate::specs::Leaves::stored))]
fn store_leaf(ram: &mut [u8], held: bool, colour: usize, depth: usize, c: u16, d: u16)
    requires colour_fits { colour + 1 < length ram.old }
    requires depth_fits { depth + 1 < length ram.old }
    ensures { ram.new ≡ stored held colour depth c d ram.old }
{
    store_half(ram, colour, c);
    if held {
        store_half(ram, depth, d);
    }
}

// TREEPUT.
pub fn tree_put(ram: &mut [u8], s: Screen, tree: &Tree)
    requires { Placed (length ram.old) s tree.now }
    ensures { ram.new ≡ tree_put s tree.now ram.old }
{
    let colour = colour_at(s, tree.column, tree.row);
    let depth = depth_at(s, tree.column, tree.row);
    for k in 0..16 {
        if tree.inside[k] | !tree.outside[k] {
            store_leaf(
                ram,
                tree.held,
                colour + 2 * k,
                depth + 2 * k,
                tree.colour[k],
                tree.depth[k],
            );
        }
    }
}

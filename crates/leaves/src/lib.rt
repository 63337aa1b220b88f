// A tree's leaves: what TREESET, TREEIN and TREEVAL 1 to 3 make of them.
#![tactic(auto)]

ghost use Rattle.std.specs.Prelude.{◌<◌, ◌≡◌};
ghost use Rattle.rules.specs.Triangles.{positive, negative};
ghost use Rattle.instructions.specs.Words.{signed};
ghost use Rattle.leaves.specs.Channels.{channel_number, channel_of};
ghost use Rattle.instructions.specs.Tree.{refuses_place, mask_bit, tree_set, leaf_value, past_leaves, tree_in, replaced, tree_colour};

use instructions::Tree;
use rules::Screen;
use screen::sizes::{height, width};
use std::array::from_fn;

// What a TREEVAL above 0 replaces, numbered as its imm.
#[derive(Clone, Copy, Debug, PartialEq, Eq)]
pub enum Channel {
    Red = 1,
    Green = 2,
    Blue = 3,
}

// 1 is red, 2 is green, and any other number blue.
impl From<u32> for Channel {
    ghost from_gives = { λ kind channel. channel ≡ channel_of kind };

    fn from(kind: u32) -> Channel {
        match kind {
            1 => Channel::Red,
            2 => Channel::Green,
            _ => Channel::Blue,
        }
    }
}

// TREESET's test of a place.
#[tactic(auto, unfolding(instructions::specs::Tree::refuses_place))]
pub fn refuses_place(s: Screen, column: u32, row: u32) -> bool
    ensures { result ≡ refuses_place s column row }
{
    !((column % 16 == 0) & (column < width(s.size)) & (row < height(s.size)))
}

// Bit 15 of the mask is for leaf 0.
#[tactic(auto, unfolding(instructions::specs::Tree::mask_bit))]
fn mask_bit(mask: u32, k: usize) -> bool
    requires { k < 16 }
    ensures { result ≡ mask_bit mask k }
{
    (mask >> (15 - k)) % 2 == 1
}

// TREESET's tree. The marks I are the marks O turned, all at once, which is less than the mask's bits once more.
pub fn tree_set(column: u32, row: u32, mask: u32) -> Tree
    ensures { result ≡ tree_set column row mask }
{
    let outside: [bool; 16] = from_fn(|k| !mask_bit(mask, k));
    Tree {
        column,
        row,
        inside: from_fn(|k| !outside[k]),
        outside,
        colour: [0; 16],
        depth: [0; 16],
        held: false,
    }
}

// r1 after TREEIN and TREEVAL.
pub fn past_leaves(a: u32, b: u32) -> u32
    ensures { result ≡ past_leaves a b }
{
    a.wrapping_add(b.wrapping_mul(16))
}

fn positive(v: u32) -> bool
    ensures { result ≡ positive (signed v) }
{
    0 < v.cast_signed()
}

fn negative(v: u32) -> bool
    ensures { result ≡ negative (signed v) }
{
    v.cast_signed() < 0
}

// What TREEIN and TREEVAL give leaf k. A product, so that no leaf waits for the one before, and wide operations serve.
#[tactic(auto, unfolding(instructions::specs::Tree::leaf_value))]
pub fn leaf_value(a: u32, b: u32, k: usize) -> u32
    requires { k < 16 }
    ensures { result ≡ leaf_value a b k }
{
    a.wrapping_add((k as u32).wrapping_mul(b))
}

// TREEIN, with r1 and r2 as they were at entry.
pub fn tree_in(tree: &mut Tree, a: u32, b: u32)
    ensures { tree.new ≡ tree_in a b tree.old }
{
    tree.inside = from_fn(|k| tree.inside[k] & !positive(leaf_value(a, b, k)));
    tree.outside = from_fn(|k| tree.outside[k] | negative(leaf_value(a, b, k)));
}

// A colour with one channel replaced by what is in the top half of `v`.
#[tactic(auto, unfolding(instructions::specs::Tree::replaced, rules::specs::Triangles::top_half))]
fn replaced(channel: Channel, v: u32, c: u16) -> u16
    ensures { result ≡ replaced (channel_number channel) v c }
{
    let top = (v / 65536) as u16;
    match channel {
        Channel::Red => top % 32 * 2048 + c / 32 % 64 * 32 + c % 32,
        Channel::Green => c / 2048 * 2048 + top % 64 * 32 + c % 32,
        Channel::Blue => c / 2048 * 2048 + c / 32 % 64 * 32 + top % 32,
    }
}

// TREEVAL 1, 2 and 3.
pub fn tree_colour(tree: &mut Tree, channel: Channel, a: u32, b: u32)
    ensures { tree.new ≡ tree_colour (channel_number channel) a b tree.old }
{
    tree.colour = from_fn(|k| replaced(channel, leaf_value(a, b, k), tree.colour[k]));
}

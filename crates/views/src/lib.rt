// The instructions from SCRSET on, which alone touch the screen and the tree.
#![tactic(auto)]

ghost use Rattle.std.specs.Prelude.{◌+◌, ◌<◌, ◌≡◌, length, ltb, true, false, IfErr, OnErr, OnOk};
ghost use Rattle.rules.specs.Folds.{choose};
ghost use Rattle.instructions.specs.Answers.{halt_of, number_of_halt};
ghost use Rattle.instructions.specs.Opcodes.{SCRSET, CLS, TREESET, TREEIN, TREEVAL, TREEPUT};
ghost use Rattle.instructions.specs.Words.{in_r1, in_r2, opcode, r1, with_register};
ghost use Rattle.instructions.specs.Arithmetic.{low_half};
ghost use Rattle.instructions.specs.Tree.{past_leaves, tree_val};
ghost use Rattle.instructions.specs.Halts.{screen_set};
ghost use Rattle.tree.specs.Leaves.{Placed};
ghost use Rattle.pieces.specs.Pieces.{at};
ghost use Rattle.pieces.specs.Steps.{Shows, TreeSteps, ViewSteps, viewing, viewing_after};

use alu::fields::{imm, r1};
use instructions::{Halt, Tree};
use leaves::{Channel, past_leaves, refuses_place, tree_colour, tree_in, tree_set};
use pieces::registers::{Registers, in_r1, in_r2, in_r3};
use pieces::state::{Cpu, View};
use rules::Screen;
use screen::clear::clear;
use screen::sizes::sound;
use tree::{tree_depth, tree_put};

// CLS and TREESET want a screen.
fn want_screen(view: &View) -> Result<(), Halt>
    ensures ok { OnOk result (view.now.shown ≡ true) }
    ensures err { IfErr result (λ halt. (number_of_halt halt ≡ 17) × (view.now.shown ≡ false)) }
{
    if view.shown {
        return Ok(());
    }
    Err(Halt::NoScreen)
}

// TREEIN, TREEVAL and TREEPUT want a tree.
fn want_tree(view: &View) -> Result<(), Halt>
    ensures ok { OnOk result (view.now.planted ≡ true) }
    ensures err { IfErr result (λ halt. (number_of_halt halt ≡ 14) × (view.now.planted ≡ false)) }
{
    if view.planted {
        return Ok(());
    }
    Err(Halt::NoTree)
}

fn screen_set(regs: &[u32; 32], w: u32) -> Screen
    ensures { result ≡ screen_set regs.now w }
{
    Screen {
        colour: in_r1(regs, w),
        depth: in_r2(regs, w),
        size: imm(w),
    }
}

pub fn do_scrset(
    w: u32,
    regs: &[u32; 32],
    cpu: &mut Cpu,
    view: &mut View,
    ram: &[u8],
) -> Result<(), Halt>
    requires opcode { opcode w ≡ SCRSET }
    requires inside { cpu.old.place < 1024 }
    ensures { ViewSteps w (viewing regs.now cpu.old view.old ram.now) (viewing_after regs.now cpu.new (halt_of result) view.new ram.now) }
{
    let screen = screen_set(regs, w);
    if !sound(ram.len(), screen) {
        return Err(Halt::NoScreen);
    }
    view.show(screen);
    cpu.onward();
    Ok(())
}

fn low_half(v: u32) -> u16
    ensures { result ≡ low_half v }
{
    (v % 65536) as u16
}

// The state's screen is sound, so the clear is not refused.
pub fn do_cls(
    w: u32,
    regs: &[u32; 32],
    cpu: &mut Cpu,
    view: &View,
    ram: &mut [u8],
) -> Result<(), Halt>
    requires opcode { opcode w ≡ CLS }
    requires inside { cpu.old.place < 1024 }
    requires shows { Shows (length ram.old) view.now }
    ensures { ViewSteps w (viewing regs.now cpu.old view.now ram.old) (viewing_after regs.now cpu.new (halt_of result) view.now ram.new) }
{
    want_screen(view)?;
    let colour = low_half(in_r1(regs, w));
    let depth = low_half(in_r2(regs, w));
    clear(ram, view.screen, colour, depth).unwrap();
    cpu.onward();
    Ok(())
}

// The place is judged only where there is a screen.
pub fn do_treeset(w: u32, regs: &[u32; 32], cpu: &mut Cpu, view: &mut View) -> Result<(), Halt>
    requires opcode { opcode w ≡ TREESET }
    requires inside { cpu.old.place < 1024 }
    ensures { TreeSteps w (viewing regs.now cpu.old view.old) (viewing_after regs.now cpu.new (halt_of result) view.new) }
{
    want_screen(view)?;
    let column = in_r1(regs, w);
    let row = in_r2(regs, w);
    if refuses_place(view.screen, column, row) {
        return Err(Halt::NoTree);
    }
    view.plant(tree_set(column, row, in_r3(regs, w)));
    cpu.onward();
    Ok(())
}

// r1 after TREEIN and TREEVAL.
fn put_past(w: u32, regs: &mut Registers)
    ensures { regs.new.words ≡ with_register regs.old.words (r1 w) (past_leaves (in_r1 regs.old.words w) (in_r2 regs.old.words w)) }
{
    let past = past_leaves(in_r1(&regs.words, w), in_r2(&regs.words, w));
    regs.put(r1(w), past);
}

pub fn do_treein(w: u32, regs: &mut Registers, cpu: &mut Cpu, view: &mut View) -> Result<(), Halt>
    requires opcode { opcode w ≡ TREEIN }
    requires inside { cpu.old.place < 1024 }
    ensures { TreeSteps w (viewing regs.old.words cpu.old view.old) (viewing_after regs.new.words cpu.new (halt_of result) view.new) }
{
    want_tree(view)?;
    tree_in(&mut view.tree, in_r1(&regs.words, w), in_r2(&regs.words, w));
    put_past(w, regs);
    cpu.onward();
    Ok(())
}

// A depth at 0, else red, green or blue. Called, and not compiled into the run, where its leaves take registers from every step.
#[inline(never)]
#[tactic(auto, unfolding(instructions::specs::Tree::tree_val), using(leaves::proofs::Channels::coloured_by_number))]
fn tree_val(kind: u32, s: Screen, ram: &[u8], a: u32, b: u32, tree: &mut Tree) -> Result<(), Halt>
    requires { Placed (length ram.now) s tree.old }
    ensures halt { halt_of result ≡ choose (ltb 3 kind) 14 0 }
    ensures ok { OnOk result (tree.new ≡ tree_val kind s ram.now a b tree.old) }
    ensures err { OnErr result (tree.new ≡ tree.old) }
{
    match kind {
        0 => tree_depth(ram, s, tree, a, b),
        1..=3 => tree_colour(tree, Channel::from(kind), a, b),
        _ => return Err(Halt::NoTree),
    }
    Ok(())
}

pub fn do_treeval(
    w: u32,
    regs: &mut Registers,
    cpu: &mut Cpu,
    view: &mut View,
    ram: &[u8],
) -> Result<(), Halt>
    requires opcode { opcode w ≡ TREEVAL }
    requires inside { cpu.old.place < 1024 }
    requires shows { Shows (length ram.now) view.old }
    ensures { ViewSteps w (viewing regs.old.words cpu.old view.old ram.now) (viewing_after regs.new.words cpu.new (halt_of result) view.new ram.now) }
{
    want_tree(view)?;
    tree_val(
        imm(w),
        view.screen,
        ram,
        in_r1(&regs.words, w),
        in_r2(&regs.words, w),
        &mut view.tree,
    )?;
    put_past(w, regs);
    cpu.onward();
    Ok(())
}

pub fn do_treeput(
    w: u32,
    regs: &[u32; 32],
    cpu: &mut Cpu,
    view: &View,
    ram: &mut [u8],
) -> Result<(), Halt>
    requires opcode { opcode w ≡ TREEPUT }
    requires inside { cpu.old.place < 1024 }
    requires shows { Shows (length ram.old) view.now }
    ensures { ViewSteps w (viewing regs.now cpu.old view.now ram.old) (viewing_after regs.now cpu.new (halt_of result) view.now ram.new) }
{
    want_tree(view)?;
    tree_put(ram, view.screen, &view.tree);
    cpu.onward();
    Ok(())
}

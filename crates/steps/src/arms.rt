// The step: one arm for each opcode, and each arm one call. The instructions up to WRITE and those from SCRSET on are matched apart: the
// first touch no screen and no tree.
ghost use Rattle.std.specs.Prelude.{◌≤◌, ◌<◌, length};
ghost use Rattle.instructions.specs.Answers.{halt_of};
ghost use Rattle.instructions.specs.Opcodes.{WRITE};
ghost use Rattle.instructions.specs.Words.{opcode};
ghost use Rattle.pieces.specs.Steps.{Shows, Steps, ViewSteps, plain, plain_after, viewing, viewing_after};

use crate::opcodes::{
    ADD, AND, ASR, ASRI, CALL, CLS, DOT, JEQ, JEQL, JGE, JGEL, JGT, JGTL, JLE, JLEL, JLT, JLTL,
    JMP, JNE, JNEL, LD, LI, LSL, LSLI, LSR, LSRI, MUL, MULF, NOT, OR, READ, RECP, SCRSET, ST, SUB,
    TREEIN, TREEPUT, TREESET, TREEVAL, WRITE, XOR,
};
use access::{do_dot, do_ld, do_read, do_st, do_write};
use alu::fields::opcode;
use instructions::Halt;
use jumps::{do_call, do_jeq, do_jge, do_jgt, do_jle, do_jlt, do_jmp, do_jne};
use pieces::registers::Registers;
use pieces::state::{Cpu, View};
use results::{
    do_add, do_and, do_asr, do_asri, do_li, do_lsl, do_lsli, do_lsr, do_lsri, do_mul, do_mulf,
    do_not, do_or, do_recp, do_sub, do_xor,
};
use views::{do_cls, do_scrset, do_treein, do_treeput, do_treeset, do_treeval};

// An instruction up to WRITE. No word reaches the last arm.
pub fn plain_step(
    w: u32,
    regs: &mut Registers,
    memory: &mut [u32; 1024],
    ram: &mut [u8],
    cpu: &mut Cpu,
) -> Result<(), Halt>
    requires low { opcode w ≤ WRITE }
    requires inside { cpu.old.place < 1024 }
    ensures { Steps w (plain regs.old.words cpu.old memory.old ram.old) (plain_after regs.new.words cpu.new (halt_of result) memory.new ram.new) }
{
    match opcode(w) {
        LD => do_ld(w, memory, regs, cpu)?,
        ST => do_st(w, memory, &regs.words, cpu)?,
        LI => do_li(w, regs, cpu),
        ADD => do_add(w, regs, cpu),
        SUB => do_sub(w, regs, cpu),
        MUL => do_mul(w, regs, cpu),
        MULF => do_mulf(w, regs, cpu),
        RECP => do_recp(w, regs, cpu),
        AND => do_and(w, regs, cpu),
        OR => do_or(w, regs, cpu),
        XOR => do_xor(w, regs, cpu),
        NOT => do_not(w, regs, cpu),
        LSL => do_lsl(w, regs, cpu),
        LSR => do_lsr(w, regs, cpu),
        ASR => do_asr(w, regs, cpu),
        LSLI => do_lsli(w, regs, cpu),
        LSRI => do_lsri(w, regs, cpu),
        ASRI => do_asri(w, regs, cpu),
        JMP => do_jmp(w, &regs.words, cpu),
        CALL => do_call(w, regs, cpu),
        JEQ => do_jeq(w, &regs.words, cpu),
        JEQL => do_jeq(w, &regs.words, cpu),
        JNE => do_jne(w, &regs.words, cpu),
        JNEL => do_jne(w, &regs.words, cpu),
        JLT => do_jlt(w, &regs.words, cpu),
        JLTL => do_jlt(w, &regs.words, cpu),
        JLE => do_jle(w, &regs.words, cpu),
        JLEL => do_jle(w, &regs.words, cpu),
        JGT => do_jgt(w, &regs.words, cpu),
        JGTL => do_jgt(w, &regs.words, cpu),
        JGE => do_jge(w, &regs.words, cpu),
        JGEL => do_jge(w, &regs.words, cpu),
        DOT => do_dot(w, memory, regs, cpu)?,
        READ => do_read(w, &regs.words, memory, ram, cpu)?,
        WRITE => do_write(w, &regs.words, memory, ram, cpu)?,
        _ => return Err(Halt::NoInstruction),
    }
    Ok(())
}

// An instruction from SCRSET on, or an opcode that has none.
pub fn view_step(
    w: u32,
    regs: &mut Registers,
    cpu: &mut Cpu,
    view: &mut View,
    ram: &mut [u8],
) -> Result<(), Halt>
    requires high { WRITE < opcode w }
    requires inside { cpu.old.place < 1024 }
    requires shows { Shows (length ram.old) view.old }
    ensures { ViewSteps w (viewing regs.old.words cpu.old view.old ram.old) (viewing_after regs.new.words cpu.new (halt_of result) view.new ram.new) }
{
    match opcode(w) {
        SCRSET => do_scrset(w, &regs.words, cpu, view, ram),
        CLS => do_cls(w, &regs.words, cpu, view, ram),
        TREESET => do_treeset(w, &regs.words, cpu, view),
        TREEIN => do_treein(w, regs, cpu, view),
        TREEVAL => do_treeval(w, regs, cpu, view, ram),
        TREEPUT => do_treeput(w, &regs.words, cpu, view, ram),
        _ => Err(Halt::NoInstruction),
    }
}

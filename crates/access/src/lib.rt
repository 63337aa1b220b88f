// The instructions that touch the data memory: LD, ST and DOT, and READ and WRITE between it and the RAM.
#![tactic(auto)]

ghost use Rattle.std.specs.Prelude.{◌<◌, ◌≡◌, IfOk, ltb};
ghost use Rattle.rules.specs.Folds.{choose};
ghost use Rattle.instructions.specs.Answers.{halt_of};
ghost use Rattle.instructions.specs.Opcodes.{LD, ST, DOT, READ, WRITE};
ghost use Rattle.instructions.specs.Words.{address, opcode};
ghost use Rattle.pieces.specs.Steps.{DataSteps, Steps, plain, plain_after};

use alu::dot::dot;
use instructions::Halt;
use moves::{move_check, read_words, write_words};
use pieces::registers::{Registers, address_in, in_r1, in_r2, in_r3};
use pieces::state::Cpu;

// The last word of the data memory.
const LAST: u32 = 1023;

// Where LD and ST read and write.
fn data_address(w: u32, regs: &[u32; 32]) -> Result<usize, Halt>
    ensures halt { halt_of result ≡ choose (ltb 1023 (address regs.now w)) 13 0 }
    ensures place { IfOk result (λ a. (a ≡ address regs.now w) × (a < 1024)) }
{
    let a = address_in(regs, w);
    if LAST < a {
        return Err(Halt::OutsideData);
    }
    Ok(a as usize)
}

pub fn do_ld(w: u32, memory: &[u32; 1024], regs: &mut Registers, cpu: &mut Cpu) -> Result<(), Halt>
    requires opcode { opcode w ≡ LD }
    requires inside { cpu.old.place < 1024 }
    ensures { DataSteps w (plain regs.old.words cpu.old memory.now) (plain_after regs.new.words cpu.new (halt_of result) memory.now) }
{
    let a = data_address(w, &regs.words)?;
    regs.put_result(w, cpu, memory[a]);
    Ok(())
}

pub fn do_st(w: u32, memory: &mut [u32; 1024], regs: &[u32; 32], cpu: &mut Cpu) -> Result<(), Halt>
    requires opcode { opcode w ≡ ST }
    requires inside { cpu.old.place < 1024 }
    ensures { DataSteps w (plain regs.now cpu.old memory.old) (plain_after regs.now cpu.new (halt_of result) memory.new) }
{
    let a = data_address(w, regs)?;
    memory[a] = in_r1(regs, w);
    cpu.onward();
    Ok(())
}

pub fn do_dot(w: u32, memory: &[u32; 1024], regs: &mut Registers, cpu: &mut Cpu) -> Result<(), Halt>
    requires opcode { opcode w ≡ DOT }
    requires inside { cpu.old.place < 1024 }
    ensures { DataSteps w (plain regs.old.words cpu.old memory.now) (plain_after regs.new.words cpu.new (halt_of result) memory.now) }
{
    let a = in_r2(&regs.words, w);
    let b = in_r3(&regs.words, w);
    if (1020 < a) | (1020 < b) {
        return Err(Halt::OutsideData);
    }
    let v = dot(memory, a as usize, b as usize);
    regs.put_result(w, cpu, v);
    Ok(())
}

pub fn do_read(
    w: u32,
    regs: &[u32; 32],
    memory: &mut [u32; 1024],
    ram: &[u8],
    cpu: &mut Cpu,
) -> Result<(), Halt>
    requires opcode { opcode w ≡ READ }
    requires inside { cpu.old.place < 1024 }
    ensures { Steps w (plain regs.now cpu.old memory.old ram.now) (plain_after regs.now cpu.new (halt_of result) memory.new ram.now) }
{
    let word = in_r1(regs, w);
    let byte = in_r2(regs, w);
    move_check(ram.len(), word, byte)?;
    read_words(memory, ram, word as usize, byte as usize);
    cpu.onward();
    Ok(())
}

pub fn do_write(
    w: u32,
    regs: &[u32; 32],
    memory: &[u32; 1024],
    ram: &mut [u8],
    cpu: &mut Cpu,
) -> Result<(), Halt>
    requires opcode { opcode w ≡ WRITE }
    requires inside { cpu.old.place < 1024 }
    ensures { Steps w (plain regs.now cpu.old memory.now ram.old) (plain_after regs.now cpu.new (halt_of result) memory.now ram.new) }
{
    let word = in_r1(regs, w);
    let byte = in_r2(regs, w);
    move_check(ram.len(), word, byte)?;
    write_words(ram, memory, word as usize, byte as usize);
    cpu.onward();
    Ok(())
}

// The instructions that put a result of the registers in r1: LI, and ADD to ASRI.
#![tactic(auto, using(pieces::proofs::Results::by_opcode))]

ghost use Rattle.std.specs.Prelude.{◌≤◌, ◌<◌, ◌≡◌, ℕ, List};
ghost use Rattle.instructions.specs.Opcodes.{LI, ADD, SUB, MUL, MULF, RECP, AND, OR, XOR, NOT, LSL, LSR, ASR, LSLI, LSRI, ASRI};
ghost use Rattle.instructions.specs.Words.{in_r2, in_r3, opcode};
ghost use Rattle.instructions.specs.Arithmetic.{result};
ghost use Rattle.pieces.specs.Steps.{RegisterSteps};

use alu::arithmetic::{difference, rounded_product, shifted_left, shifted_right, shifted_signed};
use alu::fields::{imm, immediate};
use alu::reciprocals::recp;
use pieces::registers::{Registers, address_in, in_r2, in_r3};
use pieces::state::Cpu;
use words::{product32, sum32};

// r1 gets what the operation makes of r2 and r3.
fn operate<F: FnOnce(u32, u32) -> u32>(w: u32, regs: &mut Registers, cpu: &mut Cpu, operation: F)
    requires low { LI ≤ opcode w }
    requires high { opcode w ≤ ASRI }
    requires inside { cpu.old.place < 1024 }
    requires callable { F.pre operation (in_r2 regs.old.words w) (in_r3 regs.old.words w) }
    requires defined { (v : _) → F.post operation (in_r2 regs.old.words w) (in_r3 regs.old.words w) v → (memory : List ℕ) → v ≡ result memory regs.old.words w }
    ensures { RegisterSteps w regs.old.words cpu.old regs.new.words cpu.new }
{
    let v = operation(in_r2(&regs.words, w), in_r3(&regs.words, w));
    regs.put_result(w, cpu, v);
}

pub fn do_li(w: u32, regs: &mut Registers, cpu: &mut Cpu)
    requires opcode { opcode w ≡ LI }
    requires inside { cpu.old.place < 1024 }
    ensures { RegisterSteps w regs.old.words cpu.old regs.new.words cpu.new }
{
    let to = address_in(&regs.words, w);
    operate(w, regs, cpu, |_, _| immediate(to));
}

pub fn do_add(w: u32, regs: &mut Registers, cpu: &mut Cpu)
    requires opcode { opcode w ≡ ADD }
    requires inside { cpu.old.place < 1024 }
    ensures { RegisterSteps w regs.old.words cpu.old regs.new.words cpu.new }
{
    operate(w, regs, cpu, sum32);
}

pub fn do_sub(w: u32, regs: &mut Registers, cpu: &mut Cpu)
    requires opcode { opcode w ≡ SUB }
    requires inside { cpu.old.place < 1024 }
    ensures { RegisterSteps w regs.old.words cpu.old regs.new.words cpu.new }
{
    operate(w, regs, cpu, difference);
}

pub fn do_mul(w: u32, regs: &mut Registers, cpu: &mut Cpu)
    requires opcode { opcode w ≡ MUL }
    requires inside { cpu.old.place < 1024 }
    ensures { RegisterSteps w regs.old.words cpu.old regs.new.words cpu.new }
{
    operate(w, regs, cpu, product32);
}

pub fn do_mulf(w: u32, regs: &mut Registers, cpu: &mut Cpu)
    requires opcode { opcode w ≡ MULF }
    requires inside { cpu.old.place < 1024 }
    ensures { RegisterSteps w regs.old.words cpu.old regs.new.words cpu.new }
{
    operate(w, regs, cpu, rounded_product);
}

pub fn do_recp(w: u32, regs: &mut Registers, cpu: &mut Cpu)
    requires opcode { opcode w ≡ RECP }
    requires inside { cpu.old.place < 1024 }
    ensures { RegisterSteps w regs.old.words cpu.old regs.new.words cpu.new }
{
    operate(w, regs, cpu, |a, _| recp(a));
}

pub fn do_and(w: u32, regs: &mut Registers, cpu: &mut Cpu)
    requires opcode { opcode w ≡ AND }
    requires inside { cpu.old.place < 1024 }
    ensures { RegisterSteps w regs.old.words cpu.old regs.new.words cpu.new }
{
    operate(w, regs, cpu, |a, b| a & b);
}

pub fn do_or(w: u32, regs: &mut Registers, cpu: &mut Cpu)
    requires opcode { opcode w ≡ OR }
    requires inside { cpu.old.place < 1024 }
    ensures { RegisterSteps w regs.old.words cpu.old regs.new.words cpu.new }
{
    operate(w, regs, cpu, |a, b| a | b);
}

pub fn do_xor(w: u32, regs: &mut Registers, cpu: &mut Cpu)
    requires opcode { opcode w ≡ XOR }
    requires inside { cpu.old.place < 1024 }
    ensures { RegisterSteps w regs.old.words cpu.old regs.new.words cpu.new }
{
    operate(w, regs, cpu, |a, b| a ^ b);
}

pub fn do_not(w: u32, regs: &mut Registers, cpu: &mut Cpu)
    requires opcode { opcode w ≡ NOT }
    requires inside { cpu.old.place < 1024 }
    ensures { RegisterSteps w regs.old.words cpu.old regs.new.words cpu.new }
{
    operate(w, regs, cpu, |a, _| !a);
}

pub fn do_lsl(w: u32, regs: &mut Registers, cpu: &mut Cpu)
    requires opcode { opcode w ≡ LSL }
    requires inside { cpu.old.place < 1024 }
    ensures { RegisterSteps w regs.old.words cpu.old regs.new.words cpu.new }
{
    operate(w, regs, cpu, shifted_left);
}

pub fn do_lsr(w: u32, regs: &mut Registers, cpu: &mut Cpu)
    requires opcode { opcode w ≡ LSR }
    requires inside { cpu.old.place < 1024 }
    ensures { RegisterSteps w regs.old.words cpu.old regs.new.words cpu.new }
{
    operate(w, regs, cpu, shifted_right);
}

pub fn do_asr(w: u32, regs: &mut Registers, cpu: &mut Cpu)
    requires opcode { opcode w ≡ ASR }
    requires inside { cpu.old.place < 1024 }
    ensures { RegisterSteps w regs.old.words cpu.old regs.new.words cpu.new }
{
    operate(w, regs, cpu, shifted_signed);
}

pub fn do_lsli(w: u32, regs: &mut Registers, cpu: &mut Cpu)
    requires opcode { opcode w ≡ LSLI }
    requires inside { cpu.old.place < 1024 }
    ensures { RegisterSteps w regs.old.words cpu.old regs.new.words cpu.new }
{
    operate(w, regs, cpu, |a, _| shifted_left(a, imm(w)));
}

pub fn do_lsri(w: u32, regs: &mut Registers, cpu: &mut Cpu)
    requires opcode { opcode w ≡ LSRI }
    requires inside { cpu.old.place < 1024 }
    ensures { RegisterSteps w regs.old.words cpu.old regs.new.words cpu.new }
{
    operate(w, regs, cpu, |a, _| shifted_right(a, imm(w)));
}

pub fn do_asri(w: u32, regs: &mut Registers, cpu: &mut Cpu)
    requires opcode { opcode w ≡ ASRI }
    requires inside { cpu.old.place < 1024 }
    ensures { RegisterSteps w regs.old.words cpu.old regs.new.words cpu.new }
{
    operate(w, regs, cpu, |a, _| shifted_signed(a, imm(w)));
}

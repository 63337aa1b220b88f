// The jumps, and CALL. A likely form does what the plain one does, so the two share a function.
#![tactic(auto)]

ghost use Rattle.std.specs.Prelude.{◌≤◌, ◌<◌, ◌≡◌, true};
ghost use Rattle.instructions.specs.Opcodes.{JMP, CALL, JEQ, JNE, JLT, JLE, JGT, JGE, JGEL};
ghost use Rattle.instructions.specs.Words.{opcode};
ghost use Rattle.instructions.specs.Jumps.{goes};
ghost use Rattle.pieces.specs.Steps.{RegisterSteps};
ghost use Rattle.jumps.specs.Likely.{is_plain_or_likely};

use pieces::registers::{Registers, address_in};
use pieces::state::Cpu;

// A conditional jump: to the address where the jump goes, else to the next place.
fn jump_if(test: bool, w: u32, regs: &[u32; 32], cpu: &mut Cpu)
    requires low { JEQ ≤ opcode w }
    requires high { opcode w ≤ JGEL }
    requires inside { cpu.old.place < 1024 }
    requires defined { goes (opcode w) cpu.old.negative cpu.old.zero ≡ test }
    ensures { RegisterSteps w regs.now cpu.old regs.now cpu.new }
{
    if test {
        cpu.jump(address_in(regs, w));
        return;
    }
    cpu.onward();
}

pub fn do_jmp(w: u32, regs: &[u32; 32], cpu: &mut Cpu)
    requires { opcode w ≡ JMP }
    ensures { RegisterSteps w regs.now cpu.old regs.now cpu.new }
{
    cpu.jump(address_in(regs, w));
}

// The address is worked out before R31 is written.
pub fn do_call(w: u32, regs: &mut Registers, cpu: &mut Cpu)
    requires opcode { opcode w ≡ CALL }
    requires inside { cpu.old.place < 1024 }
    ensures { RegisterSteps w regs.old.words cpu.old regs.new.words cpu.new }
{
    let to = address_in(&regs.words, w);
    regs.put(31, cpu.place + 1);
    cpu.jump(to);
}

#[tactic(auto, unfolding(instructions::specs::Jumps::goes))]
pub fn do_jeq(w: u32, regs: &[u32; 32], cpu: &mut Cpu)
    requires opcode { is_plain_or_likely JEQ (opcode w) ≡ true }
    requires inside { cpu.old.place < 1024 }
    ensures { RegisterSteps w regs.now cpu.old regs.now cpu.new }
{
    jump_if(cpu.zero, w, regs, cpu);
}

#[tactic(auto, unfolding(instructions::specs::Jumps::goes))]
pub fn do_jne(w: u32, regs: &[u32; 32], cpu: &mut Cpu)
    requires opcode { is_plain_or_likely JNE (opcode w) ≡ true }
    requires inside { cpu.old.place < 1024 }
    ensures { RegisterSteps w regs.now cpu.old regs.now cpu.new }
{
    jump_if(!cpu.zero, w, regs, cpu);
}

#[tactic(auto, unfolding(instructions::specs::Jumps::goes))]
pub fn do_jlt(w: u32, regs: &[u32; 32], cpu: &mut Cpu)
    requires opcode { is_plain_or_likely JLT (opcode w) ≡ true }
    requires inside { cpu.old.place < 1024 }
    ensures { RegisterSteps w regs.now cpu.old regs.now cpu.new }
{
    jump_if(cpu.negative, w, regs, cpu);
}

#[tactic(auto, unfolding(instructions::specs::Jumps::goes))]
pub fn do_jle(w: u32, regs: &[u32; 32], cpu: &mut Cpu)
    requires opcode { is_plain_or_likely JLE (opcode w) ≡ true }
    requires inside { cpu.old.place < 1024 }
    ensures { RegisterSteps w regs.now cpu.old regs.now cpu.new }
{
    jump_if(cpu.negative | cpu.zero, w, regs, cpu);
}

#[tactic(auto, unfolding(instructions::specs::Jumps::goes))]
pub fn do_jgt(w: u32, regs: &[u32; 32], cpu: &mut Cpu)
    requires opcode { is_plain_or_likely JGT (opcode w) ≡ true }
    requires inside { cpu.old.place < 1024 }
    ensures { RegisterSteps w regs.now cpu.old regs.now cpu.new }
{
    jump_if(!cpu.negative & !cpu.zero, w, regs, cpu);
}

#[tactic(auto, unfolding(instructions::specs::Jumps::goes))]
pub fn do_jge(w: u32, regs: &[u32; 32], cpu: &mut Cpu)
    requires opcode { is_plain_or_likely JGE (opcode w) ≡ true }
    requires inside { cpu.old.place < 1024 }
    ensures { RegisterSteps w regs.now cpu.old regs.now cpu.new }
{
    jump_if(!cpu.negative, w, regs, cpu);
}

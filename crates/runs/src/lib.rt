// The machine's run: each step in turn, to the budget or to a halt.
#![tactic(auto)]

ghost use Rattle.std.specs.Prelude.{◌≡◌};
ghost use Rattle.instructions.specs.Answers.{halt_of};
ghost use Rattle.instructions.specs.Opcodes.{current};
ghost use Rattle.instructions.specs.Step.{step};
ghost use Rattle.pieces.specs.Pieces.{machine};
ghost use Rattle.runs.specs.Runs.{Ends, Ready};

use alu::fields::opcode;
use instructions::Halt;
use pieces::registers::Registers;
use pieces::state::{Cpu, View};
use steps::arms::{plain_step, view_step};
use steps::opcodes::WRITE;

// What a run leaves of the small piece, the state's halt number, and the steps carried out.
#[derive(Clone, Copy)]
pub struct Ended {
    pub cpu: Cpu,
    pub halt: u32,
    pub steps: u64,
}

// One step, at the word of its place.
fn step(
    program: &[u32],
    regs: &mut Registers,
    memory: &mut [u32; 1024],
    ram: &mut [u8],
    cpu: &mut Cpu,
    view: &mut View,
) -> Result<(), Halt>
    requires { Ready program.now (machine regs.old.words cpu.old 0 view.old memory.old ram.old) }
    ensures { machine regs.new.words cpu.new (halt_of result) view.new memory.new ram.new ≡ step current program.now (machine regs.old.words cpu.old 0 view.old memory.old ram.old) }
{
    let w = *program.get(cpu.place as usize).ok_or(Halt::PastProgram)?;
    if opcode(w) <= WRITE {
        return plain_step(w, regs, memory, ram, cpu);
    }
    view_step(w, regs, cpu, view, ram)
}

// A halted state stays. A halting step ends the run, and is not counted.
pub fn run(
    program: &[u32],
    regs: &mut Registers,
    memory: &mut [u32],
    ram: &mut [u8],
    first: Cpu,
    halt: u32,
    view: &mut View,
    budget: u64,
) -> Ended
    requires { Ready program.now (machine regs.old.words first halt view.old memory.old ram.old) }
    ensures { Ends program.now budget (machine regs.old.words first halt view.old memory.old ram.old) result.steps (machine regs.new.words result.cpu result.halt view.new memory.new ram.new) }
{
    if halt != 0 {
        return Ended {
            cpu: first,
            halt,
            steps: 0,
        };
    }
    let words = memory.as_mut_array().unwrap();
    let mut cpu = first;
    for steps in 0..budget {
        if let Err(halt) = step(program, regs, words, ram, &mut cpu, view) {
            return Ended {
                cpu,
                halt: u32::from(halt),
                steps,
            };
        }
    }
    Ended {
        cpu,
        halt: 0,
        steps: budget,
    }
}

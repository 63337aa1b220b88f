// The machine's calls over a state by value: a run, and a single step.
ghost use Rattle.std.specs.Prelude.{◌≡◌};
ghost use Rattle.rules.specs.Answers.{number_of};
ghost use Rattle.instructions.specs.Step.{together};
ghost use Rattle.instructions.specs.Run.{run_number};
ghost use Rattle.instructions.specs.Calls.{Runs, StepsOnce};
ghost use Rattle.runs.specs.Runs.{Ends};
ghost use Rattle.machine.specs.Answers.{carried, ran, stepped};

use instructions::State;
use pieces::registers::Registers;
use pieces::state::{Cpu, View, joined};
use rules::Refusal;
use runs::run;
use states::machine_check;

// What a run leaves: the steps carried out, and the state.
#[derive(Clone, Copy)]
pub struct Left {
    pub steps: u64,
    pub state: State,
}

// A call that no number refuses, for who has judged it.
pub fn run_accepted(
    program: &[u32],
    memory: &mut [u32],
    ram: &mut [u8],
    state: State,
    budget: u64,
) -> Left
    requires { run_number program.now (together state memory.old ram.old) ≡ 0 }
    ensures { Ends program.now budget (together state memory.old ram.old) result.steps (together result.state memory.new ram.new) }
{
    let mut regs = Registers { words: state.regs };
    let mut view = View::from(&state);
    let end = run(
        program,
        &mut regs,
        memory,
        ram,
        Cpu::from(&state),
        state.halt,
        &mut view,
        budget,
    );
    let Registers { words } = regs;
    let state = joined(words, end.cpu, end.halt, &view);
    Left {
        steps: end.steps,
        state,
    }
}

// At most `budget` steps. A call that is refused leaves all memory as it was.
pub fn run_machine(
    program: &[u32],
    memory: &mut [u32],
    ram: &mut [u8],
    state: State,
    budget: u64,
) -> Result<Left, Refusal>
    ensures { Runs program.now budget (together state memory.old ram.old) (ran state result memory.new ram.new) }
{
    machine_check(program.len(), memory.len(), ram.len(), &state)?;
    Ok(run_accepted(program, memory, ram, state, budget))
}

// What a step leaves: whether it was carried out, and the state.
#[derive(Clone, Copy)]
pub struct Stepped {
    pub carried: bool,
    pub state: State,
}

// One step. It is a run of one, so that there is one run, with one loop, in the library.
pub fn step(
    program: &[u32],
    memory: &mut [u32],
    ram: &mut [u8],
    state: State,
) -> Result<Stepped, Refusal>
    ensures { StepsOnce program.now (together state memory.old ram.old) (number_of result) (carried result) (together (stepped state result) memory.new ram.new) }
{
    let Left { steps, state } = run_machine(program, memory, ram, state, 1)?;
    Ok(Stepped {
        carried: steps == 1,
        state,
    })
}

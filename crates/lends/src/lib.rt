// A run over a state as C has it, and what a run and a single step answer.
#![tactic(auto)]

ghost use Rattle.lends.specs.Lends.{RunsLent, lent, run_outcome};

use border::LentState;
use instructions::State;
use machine::calls::{Left, run_accepted};
use states::machine_check;

// What a run answers: its number, the steps carried out, and the state.
#[repr(C)]
#[derive(Clone, Copy)]
pub struct LentRan {
    pub number: u32,
    pub steps: u64,
    pub state: LentState,
}

// A call that is refused answers the lent state itself, bit by bit.
pub fn run_lent(
    program: &[u32],
    memory: &mut [u32],
    ram: &mut [u8],
    state: LentState,
    budget: u64,
) -> LentRan
    ensures { RunsLent program.now budget (lent state memory.old ram.old) (run_outcome result memory.new ram.new) }
{
    let given = State::from(state);
    if let Err(refusal) = machine_check(program.len(), memory.len(), ram.len(), &given) {
        return LentRan {
            number: u32::from(refusal),
            steps: 0,
            state,
        };
    }
    let Left { steps, state } = run_accepted(program, memory, ram, given, budget);
    LentRan {
        number: 0,
        steps,
        state: LentState::from(state),
    }
}

// What a step answers: its number, 1 if it was carried out and else 0, and the state.
#[repr(C)]
#[derive(Clone, Copy)]
pub struct LentStepped {
    pub number: u32,
    pub carried: u32,
    pub state: LentState,
}

// A state before it runs: a fresh one, whether one is ill-formed, and the number of a call with it.
#![tactic(auto)]

ghost use Rattle.std.specs.Prelude.{◌≡◌};
ghost use Rattle.rules.specs.Answers.{number_of};
ghost use Rattle.instructions.specs.Run.{ill_formed, is_halt_number, machine_number};
ghost use Rattle.instructions.specs.Calls.{Fresh};

use instructions::{State, Tree};
use leaves::refuses_place;
use rules::{Refusal, Screen};
use screen::sizes::{sound, too_long};

#[tactic(auto, unfolding(instructions::specs::Run::fresh_state))]
pub fn fresh() -> State
    ensures { Fresh result }
{
    State {
        regs: [0; 32],
        place: 0,
        negative: false,
        zero: false,
        halt: 0,
        shown: false,
        screen: Screen {
            colour: 0,
            depth: 0,
            size: 0,
        },
        planted: false,
        tree: Tree {
            column: 0,
            row: 0,
            inside: [false; 16],
            outside: [false; 16],
            colour: [0; 16],
            depth: [0; 16],
            held: false,
        },
    }
}

fn is_halt_number(halt: u32) -> bool
    ensures { result ≡ is_halt_number halt }
{
    halt == 0 || (11..=17).contains(&halt)
}

// `len` is that of the RAM. A halt number that the rules do not have is answered at once, which makes a call shorter; a screen and a
// tree's place are judged only where there is a screen.
#[tactic(auto, unfolding(instructions::specs::Run::ill_formed))]
pub fn ill_formed(len: usize, state: &State) -> bool
    ensures { result ≡ ill_formed len state.now }
{
    if !is_halt_number(state.halt) {
        return true;
    }
    let wrong = state.regs[0] != 0;
    if !state.shown {
        return wrong | state.planted;
    }
    let unsound = !sound(len, state.screen);
    wrong | unsound | state.planted & refuses_place(state.screen, state.tree.column, state.tree.row)
}

// The lowest number that applies.
#[tactic(auto, unfolding(instructions::specs::Run::machine_number))]
pub fn machine_check(
    program: usize,
    memory: usize,
    ram: usize,
    state: &State,
) -> Result<(), Refusal>
    ensures { number_of result ≡ machine_number program memory ram state.now }
{
    if 1024 < program {
        return Err(Refusal::ProgramTooLong);
    }
    if memory != 1024 {
        return Err(Refusal::WrongDataMemory);
    }
    if too_long(ram) {
        return Err(Refusal::RamTooLong);
    }
    if ill_formed(ram, state) {
        return Err(Refusal::IllFormedState);
    }
    Ok(())
}

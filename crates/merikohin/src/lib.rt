// The calls as C and Rust link them: include/merikohin.h declares each.
#![tactic(auto)]

ghost use Rattle.std.specs.Prelude.{length};
ghost use Rattle.rules.specs.Sizes.{colour_at, depth_at, pixel};
ghost use Rattle.rules.specs.Calls.{Clears, Draws};
ghost use Rattle.interpolation.specs.Interpolation.{PassesThrough};
ghost use Rattle.waveform.specs.Panel.{Panels, waveform};
ghost use Rattle.reader.specs.Rows.{Checks, Locates};
ghost use Rattle.lends.specs.Lends.{Lends, RunsLent, StepsLent, lent, run_outcome, step_outcome};

use border::{LentState, state_copied};
use interpolation::{Through, Values};
use lends::{LentRan, LentStepped, run_lent};
use reader::RowPart;
use rules::{Drawn, Screen, Triangle, Vertices, number_of};
use waveform::Panelled;

#[unsafe(no_mangle)]
pub extern "C" fn merikohin_clear(ram: &mut [u8], s: Screen, colour: u16, depth: u16) -> u32
    ensures { Clears ram.old s (pixel colour depth) result ram.new }
{
    number_of(screen::clear::clear(ram, s, colour, depth))
}

#[unsafe(no_mangle)]
pub extern "C" fn merikohin_draw(ram: &mut [u8], s: Screen, t: Triangle) -> Drawn
    ensures { Draws ram.old s t result ram.new }
{
    Drawn::from(draw::triangles::draw(ram, s, t))
}

#[unsafe(no_mangle)]
pub extern "C" fn merikohin_plane_through(v: Vertices, r: Values) -> Through
    ensures { PassesThrough v r result }
{
    Through::from(through::plane_through(v, r))
}

#[unsafe(no_mangle)]
pub extern "C" fn merikohin_panel(
    ram: &mut [u8],
    s: Screen,
    samples: &[i16],
    n: i32,
    d: i32,
    colour: u16,
) -> Panelled
    ensures { Panels ram.old s (waveform samples.now n d colour) result ram.new }
{
    Panelled::from(panel::panel(ram, s, samples, n, d, colour))
}

#[unsafe(no_mangle)]
pub extern "C" fn merikohin_row_check(ram: &[u8], s: Screen, row: u32) -> u32
    ensures { Checks (length ram.now) s row result }
{
    number_of(reader::row_check(ram, s, row))
}

#[unsafe(no_mangle)]
pub extern "C" fn merikohin_row(ram: &[u8], s: Screen, row: u32) -> RowPart
    ensures { Locates colour_at (length ram.now) s row result }
{
    RowPart::from(reader::row_part(ram, s, row))
}

#[unsafe(no_mangle)]
pub extern "C" fn merikohin_depth_row(ram: &[u8], s: Screen, row: u32) -> RowPart
    ensures { Locates depth_at (length ram.now) s row result }
{
    RowPart::from(reader::depth_row_part(ram, s, row))
}

#[unsafe(no_mangle)]
pub extern "C" fn merikohin_fresh() -> LentState
    ensures { Lends result }
{
    LentState::from(states::fresh())
}

#[unsafe(no_mangle)]
pub extern "C" fn merikohin_run(
    program: &[u32],
    memory: &mut [u32],
    ram: &mut [u8],
    state: LentState,
    budget: u64,
) -> LentRan
    ensures { RunsLent program.now budget (lent state memory.old ram.old) (run_outcome result memory.new ram.new) }
{
    run_lent(program, memory, ram, state, budget)
}

// A run of one step, whose count is 0 or 1. It calls the exported run, so that the library has one run, with all that it calls in place.
#[unsafe(no_mangle)]
pub extern "C" fn merikohin_step(
    program: &[u32],
    memory: &mut [u32],
    ram: &mut [u8],
    state: LentState,
) -> LentStepped
    ensures { StepsLent program.now (lent state memory.old ram.old) (step_outcome result memory.new ram.new) }
{
    let ran = merikohin_run(program, memory, ram, state, 1);
    LentStepped {
        number: ran.number,
        carried: ran.steps as u32,
        state: state_copied(ran.state),
    }
}

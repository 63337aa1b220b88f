ghost use Rattle.std.specs.Prelude.{◌+◌, ◌*◌, ◌≤◌, ◌≡◌, length, true};
ghost use Rattle.rules.specs.Sizes.{pixel, sound};
ghost use Rattle.rules.specs.Answers.{number_of};
ghost use Rattle.rules.specs.Calls.{Clears, cleared};
ghost use Rattle.screen.specs.Fills.{filled};

use crate::sizes::{pixel_count, screen_check};
use ram::store_half;
use rules::{Refusal, Screen};

// One stretch of bytes, so that the stores become wide ones.
#[tactic(auto, using(crate::proofs::Fills::filled_none, crate::proofs::Fills::filled_more))]
fn fill(ram: &mut [u8], start: usize, count: usize, v: u16)
    requires { start + count * 2 ≤ length ram.old }
    ensures { ram.new ≡ filled start v count ram.old }
{
    for i in 0..count {
        store_half(ram, start + i * 2, v);
    }
}

// Two areas, one after the other.
#[tactic(auto, using(rules::proofs::Strips::sound_facts, crate::proofs::Fills::areas_filled))]
fn fill_areas(ram: &mut [u8], s: Screen, colour: u16, depth: u16)
    requires { sound (length ram.old) s ≡ true }
    ensures { ram.new ≡ cleared s colour depth ram.old }
{
    let count = pixel_count(s.size);
    fill(ram, s.colour as usize, count, colour);
    fill(ram, s.depth as usize, count, depth);
}

#[tactic(auto, using(rules::proofs::Refusals::screen_number_passed, crate::proofs::Fills::refused, crate::proofs::Fills::done))]
pub fn clear(ram: &mut [u8], s: Screen, colour: u16, depth: u16) -> Result<(), Refusal>
    ensures { Clears ram.old s (pixel colour depth) (number_of result) ram.new }
{
    screen_check(ram.len(), s)?;
    fill_areas(ram, s, colour, depth);
    Ok(())
}

// READ and WRITE: their halts, and 16 words between the RAM and the data memory.
#![tactic(auto)]

ghost use Rattle.std.specs.Prelude.{◌+◌, ◌≤◌, ◌<◌, ◌≡◌, length};
ghost use Rattle.instructions.specs.Answers.{halt_of};
ghost use Rattle.instructions.specs.Moves.{words_read, words_written};
ghost use Rattle.moves.specs.Halts.{move_halt};

use instructions::Halt;
use ram::{load_word, store_word};

const WORDS: usize = 16;

// The halt of a READ or WRITE: `word` is its data address, `byte` its RAM address, `len` the RAM's length.
pub fn move_check(len: usize, word: u32, byte: u32) -> Result<(), Halt>
    ensures { halt_of result ≡ move_halt len word byte }
{
    if 1008 < word {
        return Err(Halt::MoveOutsideData);
    }
    if (byte % 4 != 0) | (len < byte as usize + 64) {
        return Err(Halt::MoveOutsideRam);
    }
    Ok(())
}

// READ: from the RAM's byte address `from` to the data address `to`.
pub fn read_words(memory: &mut [u32], ram: &[u8], to: usize, from: usize)
    requires words { to + 16 ≤ length memory.old }
    requires bytes { from + 64 ≤ length ram.now }
    ensures { memory.new ≡ words_read ram.now to from memory.old }
{
    for i in 0..WORDS {
        memory[to + i] = load_word(ram, from + 4 * i);
    }
}

// WRITE: from the data address `from` to the RAM's byte address `to`.
pub fn write_words(ram: &mut [u8], memory: &[u32], from: usize, to: usize)
    requires words { from + 16 ≤ length memory.now }
    requires bytes { to + 64 ≤ length ram.old }
    ensures { ram.new ≡ words_written memory.now from to ram.old }
{
    for i in 0..WORDS {
        store_word(ram, to + 4 * i, memory[from + i]);
    }
}

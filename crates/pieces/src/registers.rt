// The registers that a word names, the address, and a write, which R0 loses.
ghost use Rattle.std.specs.Prelude.{◌<◌, ◌≡◌};
ghost use Rattle.instructions.specs.Words.{address, in_r1, in_r2, in_r3, r1, register, with_register};
ghost use Rattle.pieces.specs.Pieces.{resulted};

use crate::state::Cpu;
use alu::arithmetic::{negative_flag, zero_flag};
use alu::fields::{address, r1, r2, r3};

pub fn in_r1(regs: &[u32; 32], w: u32) -> u32
    ensures { result ≡ in_r1 regs.now w }
{
    regs[r1(w)]
}

pub fn in_r2(regs: &[u32; 32], w: u32) -> u32
    ensures { result ≡ in_r2 regs.now w }
{
    regs[r2(w)]
}

pub fn in_r3(regs: &[u32; 32], w: u32) -> u32
    ensures { result ≡ in_r3 regs.now w }
{
    regs[r3(w)]
}

#[tactic(auto, unfolding(instructions::specs::Words::address))]
pub fn address_in(regs: &[u32; 32], w: u32) -> u32
    ensures { result ≡ address regs.now w }
{
    address(in_r2(regs, w), w)
}

// "R0 is always 0"
#[derive(Drop)]
pub struct Registers {
    pub words: [u32; 32],
    pub ghost zero_register: { register words 0 ≡ 0 },
}

impl Registers {
    // R0 is stored to like any other register and set to 0 again: no branch.
    #[tactic(auto, using(crate::proofs::Zeroed::put_zeroed))]
    pub fn put(&mut self, i: usize, v: u32)
        requires { i < 32 }
        ensures { self.new.words ≡ with_register self.old.words i v }
    {
        self.words[i] = v;
        self.words[0] = 0;
    }

    // A result goes to r1, and the flags follow it even when R0 is the target.
    pub fn put_result(&mut self, w: u32, cpu: &mut Cpu, v: u32)
        requires { cpu.old.place < 1024 }
        ensures registers { self.new.words ≡ with_register self.old.words (r1 w) v }
        ensures cpu { cpu.new ≡ resulted v cpu.old }
    {
        self.put(r1(w), v);
        cpu.place += 1;
        cpu.negative = negative_flag(v);
        cpu.zero = zero_flag(v);
    }
}

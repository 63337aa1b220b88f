// DOT: four products of words in data memory, each rounded before they are added.
ghost use Rattle.std.specs.Prelude.{◌≡◌, ◌+◌, ◌<◌, length};
ghost use Rattle.instructions.specs.Arithmetic.{dot_term, dot};

use crate::arithmetic::rounded_product;

fn term(memory: &[u32], a: usize, b: usize, i: usize) -> u32
    requires left { a + i < length memory.now }
    requires right { b + i < length memory.now }
    ensures { result ≡ dot_term memory.now a b i }
{
    rounded_product(memory[a + i], memory[b + i])
}

#[tactic(auto, unfolding(instructions::specs::Arithmetic::dot))]
pub fn dot(memory: &[u32], a: usize, b: usize) -> u32
    requires left { a + 3 < length memory.now }
    requires right { b + 3 < length memory.now }
    ensures { result ≡ dot memory.now a b }
{
    term(memory, a, b, 0)
        .wrapping_add(term(memory, a, b, 1))
        .wrapping_add(term(memory, a, b, 2))
        .wrapping_add(term(memory, a, b, 3))
}

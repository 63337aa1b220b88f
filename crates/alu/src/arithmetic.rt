// What single instructions work out of their operands, beside the sums and products of `words`, and the flags.
ghost use Rattle.std.specs.Prelude.{◌≡◌, ltb};
ghost use Rattle.instructions.specs.Arithmetic.{difference, rounded_product, reciprocal, negative_flag, zero_flag};
ghost use Rattle.instructions.specs.Arithmetic.{shifted_left, shifted_right, shifted_signed};
ghost use Rattle.rules.specs.Folds.{choose};

use crate::signed::signed;
use words::low32;

pub fn difference(a: u32, b: u32) -> u32
    ensures { result ≡ difference a b }
{
    a.wrapping_sub(b)
}

// A signed shift rounds down, also below zero.
pub fn rounded_product(a: u32, b: u32) -> u32
    ensures { result ≡ rounded_product a b }
{
    low32((signed(a) * signed(b)) >> 16)
}

// A signed quotient rounds toward zero.
#[tactic(auto, unfolding(instructions::specs::Arithmetic::reciprocal))]
pub fn reciprocal(a: u32) -> u32
    ensures { result ≡ reciprocal a }
{
    if a == 0 {
        return 2147483647;
    }
    low32(2147483647 / signed(a))
}

#[tactic(auto, unfolding(instructions::specs::Arithmetic::shifted_left), using(instructions::proofs::Shifts::lsl_from_32))]
pub fn shifted_left(a: u32, k: u32) -> u32
    ensures { result ≡ shifted_left a k }
{
    a.checked_shl(k).unwrap_or(0)
}

#[tactic(auto, unfolding(instructions::specs::Arithmetic::shifted_right), using(instructions::proofs::Shifts::lsr_from_32))]
pub fn shifted_right(a: u32, k: u32) -> u32
    ensures { result ≡ shifted_right a k }
{
    a.checked_shr(k).unwrap_or(0)
}

// By 32 nothing is left but the sign.
pub fn shifted_signed(a: u32, k: u32) -> u32
    ensures { result ≡ shifted_signed a k }
{
    low32(signed(a) >> k.min(32))
}

pub fn negative_flag(v: u32) -> bool
    ensures { result ≡ negative_flag v }
{
    v.cast_signed() < 0
}

pub fn zero_flag(v: u32) -> bool
    ensures { result ≡ zero_flag v }
{
    v == 0
}

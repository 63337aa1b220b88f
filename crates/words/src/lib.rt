// Arithmetic modulo 2^32, and pairs of such numbers in a word of 64 bits.
#![tactic(auto)]

ghost use Rattle.std.specs.Prelude.{◌≡◌, ◌+◌, ◌*◌, ◌%◌, ◌^◌};
ghost use Rattle.ints.specs.Modulo.{mod32};

// z modulo 2^32.
pub fn low32(z: i64) -> u32
    ensures { result ≡ mod32 z }
{
    (z.cast_unsigned() % 4294967296) as u32
}

// A signed number modulo 2^32: its bits.
pub fn bits32(v: i32) -> u32
    ensures { result ≡ mod32 v }
{
    v.cast_unsigned()
}

// The sum modulo 2^32.
pub fn sum32(a: u32, b: u32) -> u32
    ensures { result ≡ (a + b) % 4294967296 }
{
    a.wrapping_add(b)
}

// The product modulo 2^32.
pub fn product32(a: u32, b: u32) -> u32
    ensures { result ≡ a * b % 4294967296 }
{
    a.wrapping_mul(b)
}

// c + a·x + b·y modulo 2^32.
pub fn affine32(c: u32, a: u32, b: u32, x: u32, y: u32) -> u32
    ensures { result ≡ (c + a * x + b * y) % 4294967296 }
{
    sum32(sum32(c, product32(a, x)), product32(b, y))
}

// Two numbers in one word, `high` above `low`.
pub fn pair(high: u32, low: u32) -> u64
    ensures { result ≡ high * 4294967296 + low }
{
    high as u64 * 4294967296 + low as u64
}

// n times a pair modulo 2^64: where the lower number stays in its half, each half by itself.
pub fn pair_times(p: u64, n: u32) -> u64
    ensures { result ≡ p * n % 2 ^ 64 }
{
    p.wrapping_mul(n as u64)
}

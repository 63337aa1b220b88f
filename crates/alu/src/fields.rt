// The fields of an instruction word, and the address that it names.
ghost use Rattle.std.specs.Prelude.{◌≡◌};
ghost use Rattle.instructions.specs.Words.{opcode, r1, r2, r3, imm, sign_extended};
ghost use Rattle.instructions.specs.Arithmetic.{sum, immediate};

pub fn opcode(w: u32) -> u32
    ensures { result ≡ opcode w }
{
    w >> 26
}

pub fn r1(w: u32) -> usize
    ensures { result ≡ r1 w }
{
    ((w >> 21) % 32) as usize
}

pub fn r2(w: u32) -> usize
    ensures { result ≡ r2 w }
{
    ((w >> 16) % 32) as usize
}

pub fn r3(w: u32) -> usize
    ensures { result ≡ r3 w }
{
    ((w >> 11) % 32) as usize
}

pub fn imm(w: u32) -> u32
    ensures { result ≡ imm w }
{
    w % 65536
}

// The low half, sign-extended: imm of a word, and what LI loads of an address.
pub fn immediate(n: u32) -> u32
    ensures { result ≡ immediate n }
{
    let half = (n % 65536) as u16;
    (half.cast_signed() as i32).cast_unsigned()
}

// The base is what the word's r2 holds.
#[tactic(auto, unfolding(instructions::specs::Arithmetic::immediate))]
pub fn address(base: u32, w: u32) -> u32
    ensures { result ≡ sum base (sign_extended (imm w)) }
{
    base.wrapping_add(immediate(w))
}

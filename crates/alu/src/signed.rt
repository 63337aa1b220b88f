// A word read as signed.
ghost use Rattle.std.specs.Prelude.{◌≡◌};
ghost use Rattle.instructions.specs.Words.{signed};

pub fn signed(v: u32) -> i64
    ensures { result ≡ signed v }
{
    v.cast_signed() as i64
}

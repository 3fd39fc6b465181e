// A number brought to fewer bits (one lane of lanes.rs): the nearest, the high half, the low half, the bits.
ghost use Rattle.std.specs.Prelude.{◌≡◌};
ghost use Rattle.std.specs.Int.Signed.{shr_z};
ghost use Rattle.std.specs.Int.{w16};
ghost use Rattle.std.proofs.Common.{of_z, to_z};
ghost use Rattle.scalar.specs.cuts.Cuts.{sat16, wrap16, wrap32, packus_of};

// The number of 16 bits nearest to s.
#[tactic(auto, using(crate::proofs::Methods::sat_is))]
pub fn sat(s: i32) -> i16
    ensures { result ≡ sat16 s }
{
    s.clamp(-32768, 32767) as i16
}

// The high half of s.
pub fn high(s: i32) -> i16
    ensures { result ≡ shr_z s 65536 }
{
    (s >> 16) as i16
}

// The low half of s, read as signed.
#[tactic(auto, using(crate::proofs::Methods::low_is))]
pub fn low(s: i32) -> i16
    ensures { result ≡ wrap16 s }
{
    ((s.cast_unsigned() % 65536) as u16).cast_signed()
}

// The low 32 bits of s, read as signed.
#[tactic(auto, using(crate::proofs::Methods::low32_is))]
pub fn low32(s: i64) -> i32
    ensures { result ≡ wrap32 s }
{
    ((s.cast_unsigned() % 4294967296) as u32).cast_signed()
}

// The 16 bits of x as an unsigned number.
pub fn bits16(x: i16) -> u32
    ensures { result ≡ of_z w16 x }
{
    u32::from(x.cast_unsigned())
}

// The 16 bits of x, read as signed.
pub fn signed16(x: u16) -> i16
    ensures { result ≡ to_z w16 x }
{
    x.cast_signed()
}

// The number of 8 bits nearest to x.
#[tactic(auto, using(crate::proofs::Methods::packus_is))]
pub fn packus1(x: i16) -> u8
    ensures { result ≡ packus_of x }
{
    x.clamp(0, 255) as u8
}

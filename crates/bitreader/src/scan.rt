// A look for zero bytes that spares a read-through: a bad code is 55 zero bits in a row, so it holds six whole zero bytes.
// A stream without six zero bytes in a row holds no bad code.
ghost use Rattle.std.specs.Prelude.{◌≡◌, List, [], ◌∷◌, drop};
ghost use Rattle.bits.specs.Bits.{bit};
ghost use Rattle.bitreader.specs.scan.Six.{zero_bytes, no_six_zeros};

// 1 where all six bytes are zero, else 0.
fn six(a: u8, b: u8, c: u8, d: u8, e: u8, f: u8) -> u8
    ensures { result ≡ bit (zero_bytes 6 (a ∷ b ∷ c ∷ d ∷ e ∷ f ∷ [])) }
{
    if (a | b | c | d | e | f) == 0 { 1 } else { 0 }
}

// No six zero bytes stand in a row from the byte `from` on. All places are looked at, without a way out of the loop: so it becomes vector code.
pub fn no_six_zeros(s: &[u8], from: usize) -> bool
    ensures { result ≡ no_six_zeros (drop from s.now) }
{
    let n = s.len();
    if n < 6 {
        return true;
    }
    let mut found: u8 = 0;
    for i in from..n - 5 {
        found = found | six(s[i], s[i + 1], s[i + 2], s[i + 3], s[i + 4], s[i + 5]);
    }
    found == 0
}

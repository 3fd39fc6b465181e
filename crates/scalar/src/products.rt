// Products of one lane of 16 bits (lanes.rs): exact, the high half, the low half.
// a and b are the two operands of one operation: a struct of both would be made for each call and taken apart in it.
ghost use Rattle.std.specs.Prelude.{◌≡◌, ◌*ℤ◌};
ghost use Rattle.scalar.specs.products.Products.{mulhi_of, mulhiu_of, mullo_of};

use crate::cuts::{bits16, high};

// The product, which fits 32 bits.
pub fn mul16(a: i16, b: i16) -> i32
    ensures { result ≡ a *ℤ b }
{
    i32::from(a) * i32::from(b)
}

// The high half of the product.
#[tactic(auto, unfolding(crate::specs::products::Products::mulhi_of))]
pub fn mulhi1(a: i16, b: i16) -> i16
    ensures { result ≡ mulhi_of a b }
{
    high(mul16(a, b))
}

// The low half of the product.
#[tactic(auto, using(crate::proofs::Methods::mullo_is))]
pub fn mullo1(a: i16, b: i16) -> i16
    ensures { result ≡ mullo_of a b }
{
    a.wrapping_mul(b)
}

// The high half of the product, both read as unsigned.
#[tactic(auto, unfolding(crate::specs::products::Products::mulhiu_of))]
pub fn mulhi_u1(a: i16, b: i16) -> i16
    ensures { result ≡ mulhiu_of a b }
{
    let p = bits16(a) * bits16(b);
    ((p / 65536) as u16).cast_signed()
}

// Products of eight lanes (lanes.rs); those added in pairs are passed on.
ghost use Rattle.std.specs.Prelude.{◌≡◌};
ghost use Rattle.lanes.specs.Lanes.{mm_mulhi_epi16, mm_mulhi_epu16, mm_mullo_epi16};

use crate::maps::map2;
pub use crate::pair_products::madd;

// The high halves of the products.
pub fn mulhi(a: [i16; 8], b: [i16; 8]) -> [i16; 8]
    ensures { result ≡ mm_mulhi_epi16 a b }
{
    map2(a, b, scalar::mulhi1)
}

// The high halves of the products, the lanes read as unsigned.
pub fn mulhi_u(a: [i16; 8], b: [i16; 8]) -> [i16; 8]
    ensures { result ≡ mm_mulhi_epu16 a b }
{
    map2(a, b, scalar::mulhi_u1)
}

// The low halves of the products.
pub fn mullo(a: [i16; 8], b: [i16; 8]) -> [i16; 8]
    ensures { result ≡ mm_mullo_epi16 a b }
{
    map2(a, b, scalar::mullo1)
}

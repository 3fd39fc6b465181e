// One lane of each operation of lanes.rs, and the few steps that they are made of, in the modules of scalar: all their functions, definitions
// and laws are passed on here, beside the laws that every loop over numbers cites.
// One signed operation a function: so each proof is short, and the compiler inlines them all.
#![tactic(auto)]

pub mod cuts;
pub mod products;
pub mod shifts;
pub mod signs;
pub mod sums;
pub mod wide;

pub use crate::cuts::{bits16, high, low, low32, packus1, sat, signed16};
pub use crate::products::{mul16, mulhi_u1, mulhi1, mullo1};
pub use crate::shifts::{or1, sll16, sra16, sra32};
pub use crate::signs::{abs1, max1, min1, neg, sign1};
pub use crate::sums::{add1, adds1, diff16, subs1, sum16};
pub use crate::wide::{add32, diff32, madd1, sub32, sum32};

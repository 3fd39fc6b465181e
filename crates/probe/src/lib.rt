// Inner functions opened for the comparison with the published code: one file for each crate. The crate probe_c exports them to the
// oracle, and replays calls some; nobody else does. What the crate vmx_c exports is compared through it.
#![tactic(auto)]

mod arrays;
pub mod blocks;
mod codes;
mod corners;
pub mod of_bitacc;
pub mod of_bitreader;
pub mod of_dct;
pub mod of_lanes;
pub mod of_lent;
pub mod of_parts;
pub mod of_shuffles;
pub mod of_tables;

// The calls of the crate probe for the oracle: each export calls the function of its name, at its kind of samples.
#![tactic(auto)]

pub mod blocks;
pub mod of_bitacc;
pub mod of_bitreader;
pub mod of_dct;
pub mod of_lanes;
pub mod of_lent;
pub mod of_parts;
pub mod of_shuffles;
pub mod of_tables;

// The entropy coder of slice.rs: a block, and the streams of a plane.
#![tactic(auto)]

pub mod block;
pub mod coder;
pub mod plane;
pub mod short;

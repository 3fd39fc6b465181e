// Answers handed out into the places that a caller lends.
#![tactic(auto)]

pub mod frame;
pub mod plane;

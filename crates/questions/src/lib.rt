// The questions of a call on planes or slices, in their order, the sizes that a call asks for, and what the calls answer.
// Single questions are answered by crate ask.
#![tactic(auto)]

pub mod answers;
pub mod four;
pub mod of_call;
pub mod order;
pub mod sizes;

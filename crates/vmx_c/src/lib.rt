// The calls of the crate vmx for programs in C, C++ and Rust (include/vmx.h): each export calls the function of its name and
// states its clauses again.
#![tactic(auto)]

pub mod container;
pub mod eight;
pub mod previews;
pub mod room;
pub mod ten;

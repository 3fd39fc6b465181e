// VMX planes, slice streams and frames: the calls for programs in C, C++ and Rust (include/vmx.h), which the crate vmx_c exports.
#![tactic(auto, using(calls::proofs::Told::handed_out))]

pub mod container;
pub mod eight;
pub mod previews;
pub mod room;
pub mod ten;

// Frames that were built are the Rust's, and are read back: definitions and theorems, no code.
#![tactic(auto)]

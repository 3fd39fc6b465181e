// Planes and slices as whole calls (slice.rs): coefficients, calls, lists of calls and demand 3. Definitions and their laws only.
#![tactic(auto)]

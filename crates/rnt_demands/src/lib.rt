// Demand 2 of the resolution notification section, over what the calls answer. This crate has the definition and the theorems;
// the calls are in `rnt_reader` and `rnt_providers`.
#![tactic(auto)]

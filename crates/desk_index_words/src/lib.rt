// An index beside the section in a script's words (docs/VECTORS.md), read and printed. What is promised of this crate is that it
// traps on nothing and ends; the gate runs it on stored input with rctdesk.
#![tactic(auto)]

pub mod index_words;
mod set_words;

// The words of a script's line, read by forms. What is promised of this crate is that it traps on nothing and ends; the gate
// runs it on stored input with the programs that stand on it.
#![tactic(auto)]

pub mod calls;
pub mod form;
pub mod read;
pub mod scan;

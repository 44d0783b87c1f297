// What the programs read and write: the lines of standard input, and answers printed by forms, to base 16 or as text.
// Nothing here knows of sections. What is promised of this crate is that it traps on nothing and ends: no contract can say
// what is read or written, and the gate runs it on stored input with the programs that stand on it. What reads is handed what
// it reads from, and what prints what it prints to; where either fails, the answer is its error.
//
// A form says how a run of words looks, in a call and in an answer alike: `#` in it is a number, `%` one that a byte holds,
// `~` one that two bits hold, `?` one that a flag holds, `*` a byte in two digits to base 16, and any other character is
// itself. `_` stands for nothing: it fills up a short form.
#![tactic(auto)]

pub mod digits;
pub mod input;
pub mod lines;
pub mod print;

// A form that goes by value.
pub type Short = [u8; 24];

// A word of a form by itself.
pub type Word = [u8; 10];

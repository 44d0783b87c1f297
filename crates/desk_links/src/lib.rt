// A link, its locator and ranges in a script's words (docs/VECTORS.md): a form for each, by which it is read and printed alike,
// and what turns its numbers into the record and back. What is promised of this crate is that it traps on nothing and ends; the
// gate runs it on stored input with rctdesk.
#![tactic(auto)]

pub mod link_words;
pub mod locator_words;
pub mod range_words;

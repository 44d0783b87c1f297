// Appending a link and replacing a link in a lent buffer.
#![tactic(auto)]

pub mod editing;
pub(crate) mod splicing;

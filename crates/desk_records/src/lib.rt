// The header that every table has, the related content section and the answer of an edit in a script's words (docs/VECTORS.md),
// as desk_links has them of a link. What is promised of this crate is that it traps on nothing and ends; the gate runs it on
// stored input with rctdesk.
#![tactic(auto)]

pub mod edited_words;
pub mod header_words;
pub mod section_words;

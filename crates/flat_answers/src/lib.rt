// What the calls on links, edits and providers answer, as numbers alone: first the refusal, whose number is 0 where there is
// none. Beside a refusal stand zeros, or the index as it was.
#![tactic(auto)]

pub mod edits;
pub mod links;
pub mod providers;

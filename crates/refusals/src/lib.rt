// The fixed list of refusals: no call of the library has another number of its own, and each of it is received. This crate has the list and the theorem of each call; the calls are in the crates below.
#![tactic(auto)]

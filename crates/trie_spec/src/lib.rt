// What the trie's functions answer and do over the bytes of a store, on any bytes, and what that means on an accepted store: types, definitions and laws.
// The crates lookup, trie and removal have the code.
#![tactic(auto)]

pub mod descent;
pub mod insert;

// The port of trie.rs, insertion: in a store whose header is right, over the descents of the crate lookup. Every function equals a definition over the
// bytes, on any bytes; the public calls stand above this crate.
#![tactic(auto)]

pub mod insert;
pub mod relink;

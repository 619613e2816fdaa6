// The port of trie.rs, removal: of a leaf from a store whose header is right. Every function equals a definition over the bytes, on any bytes.
#![tactic(auto)]

pub mod remove;

// The port of node.rs: the records of a store. A store is a header of 128 bytes and a block for each key of its capacity, and a block holds a leaf
// record and a branch record, which are two number spaces. Above this crate nothing speaks of an offset.
#![tactic(auto)]

pub mod branch;
pub mod child;
pub mod header;
pub mod layout;
pub mod leaf;

// What no store has was met: the header is wrong, a link names no record, or the records are no tree.
#[derive(Clone, Copy, Debug, PartialEq, Eq)]
pub struct NotAStore;

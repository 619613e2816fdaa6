// The walk of the check over the tree, and the definitions of the check over the bytes of a store.
#![tactic(auto)]

pub mod tree;

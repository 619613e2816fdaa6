// The port of iterator.rs: the entries under a prefix from some key on, written into a lent output. The Rust keeps a list of waiting nodes from one entry to the
// next; here a page is two ways down and a walk over what it gives, and the next page begins with ways down of its own.
#![tactic(auto)]

pub mod page;

// The walk of a page: entries written one directly after the other, below a child or past a key, as many as are wanted.
#![tactic(auto)]

pub mod entry;
pub mod walk;

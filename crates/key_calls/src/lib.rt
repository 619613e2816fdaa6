// The calls on one key: insert, get, overwrite, remove.
#![tactic(auto)]

pub mod get;
pub mod insert;
pub mod overwrite;
pub mod remove;

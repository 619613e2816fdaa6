// Records taken and given: the chains of free leaves and free branches, and the creation of an empty store, which chains every record.
#![tactic(auto)]

pub mod chain;
pub mod create;

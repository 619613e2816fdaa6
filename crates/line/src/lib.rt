// The language of the command program: what a line means, what is answered, how input in pieces becomes lines. Functions on slices; nothing here knows a store.
#![tactic(auto)]

pub mod pieces;
pub mod reading;
pub mod writing;

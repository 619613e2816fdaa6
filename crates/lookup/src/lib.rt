// Lookup in a store whose header is right: nibbles and critical positions, the descents, the leaf of a key. Every function equals a definition over the
// bytes, on any bytes.
#![tactic(auto)]

pub mod descent;
pub mod find;
pub mod keys;

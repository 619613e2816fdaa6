// Each command of document 01 carried out on a store, and a turn of the program, from bytes of input to bytes of output. Functions on slices; the crate line
// has the language, and listings the command that lists.
#![tactic(auto)]

pub mod answer;
pub mod turns;

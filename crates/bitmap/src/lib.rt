// A bitmap of 17 slots, and what the items of its present slots are, packed: the ground of the sparse array.
#![tactic(auto)]

pub mod bits;

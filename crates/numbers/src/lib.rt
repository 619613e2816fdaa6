// The answers of the calls as numbers, for programs in C, C++ and Rust, and what stands beside them.
#![tactic(auto)]

pub mod numbers;

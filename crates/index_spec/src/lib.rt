// What each call of the public face answers and does, on any bytes: its refusals, the layout that the promises are taken at, definitions, and the laws
// by which they keep the promises. The crates store_calls, key_calls and page_calls have the code.
#![tactic(auto)]

pub mod insert;
pub mod pages;
pub mod stored;

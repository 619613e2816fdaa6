// The public face: the ten calls, their answers and their refusals. A call has two contracts, on any bytes and with nothing required: its promise, which a caller relies on,
// and what it does, answer and bytes (`is`). The check has its promise alone. The code is in store_calls, key_calls and page_calls.
#![tactic(auto)]

pub mod check;
pub mod create;
pub mod get;
pub mod insert;
pub mod is_empty;
pub mod overwrite;
pub mod pages;
pub mod remove;
pub mod set_limit;

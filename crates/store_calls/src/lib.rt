// The calls on a whole store: a new one, the check, whether it has no key, another height limit.
#![tactic(auto)]

pub mod check;
pub mod create;
pub mod is_empty;
pub mod set_limit;

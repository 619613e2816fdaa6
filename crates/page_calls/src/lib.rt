// The calls for a listing, page by page.
#![tactic(auto)]

pub mod pages;

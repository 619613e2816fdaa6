// Listings of the command program, page by page: entries as lines of text, each page asked for after the last key of the one before it.
#![tactic(auto)]

pub mod listing;

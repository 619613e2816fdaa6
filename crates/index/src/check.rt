// Whether a store is one that the calls keep: the check of document 01, which the crate audit makes.
pub use node::NotAStore;
pub use store_calls::check::check;

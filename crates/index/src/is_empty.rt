// Whether a store has no key: by the header's count of leaves.
pub use node::NotAStore;
pub use store_calls::is_empty::is_empty;

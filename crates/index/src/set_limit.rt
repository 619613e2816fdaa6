// Another height limit: the header is written with it.
pub use node::NotAStore;
pub use store_calls::set_limit::set_limit;

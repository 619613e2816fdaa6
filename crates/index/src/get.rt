// The value of a stored key.
pub use index_spec::stored::LookupError;
pub use key_calls::get::get;

// A stored key is taken out.
pub use index_spec::stored::LookupError;
pub use key_calls::remove::remove;

// A stored key gets another value.
pub use index_spec::stored::LookupError;
pub use key_calls::overwrite::overwrite;

// A key goes in with its value; a stored key gets the new value.
pub use index_spec::insert::InsertError;
pub use key_calls::insert::insert;
pub use trie_spec::insert::Inserted;

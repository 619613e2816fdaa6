// A new, empty store in the bytes that the caller lends.
pub use records::create::NoRoom;
pub use store_calls::create::create;

// Listings, page by page. "From the start" is not "after the empty key", so they are two calls.
pub use index_spec::pages::{Mode, PageError};
pub use iterator::page::Page;
pub use page_calls::pages::{first_page, next_page};

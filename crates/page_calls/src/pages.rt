// Listings, page by page. "From the start" is not "after the empty key", so they are two calls. What holds once the header is read and the
// sizes are tested stands in list_after's contract: the store and its header are two values, and a lent slice has no type for its least or greatest length.
ghost use Rattle.std.specs.Prelude.{◌≡◌, ◌≤◌, ◌*◌, length};
ghost use Rattle.model.specs.Key.{key_limit};
ghost use Rattle.model.specs.Page.{after_key, follows};
ghost use Rattle.model.specs.Numbers.{entry_limit};
ghost use Rattle.node.specs.Layout.{start};
ghost use Rattle.trie_spec.specs.Writes.{Did};
ghost use Rattle.promises.specs.Promises.{FirstPage, NextPage};
ghost use Rattle.index_spec.specs.Layout.{layout};
ghost use Rattle.index_spec.specs.Replies.{mode_of, page_reply};
ghost use Rattle.index_spec.specs.Pages.{is_inclusive, count_wrong, next_in, first_call, next_call};

pub use index_spec::pages::{Mode, PageError};
pub use iterator::page::Page;
use iterator::page::list;
use lookup::keys::{critical, nibble};
use node::NotAStore;
use node::header::{Header, read_head};
use node::layout::KEY_LIMIT;
use walk::entry::ENTRY_LIMIT;

const PAGE_LIMIT: u32 = 256;

// A size that no page has, or an output that is too short for it.
fn count_wrong(n: u32, room: usize) -> bool
    ensures { result ≡ count_wrong n room }
{
    n == 0 || PAGE_LIMIT < n || room < ENTRY_LIMIT * (n as usize)
}

// Whether one key lies below another: by their critical position, of which the laws of the tree's order speak, where of the library's order of slices a law
// would have to say that it is theirs.
fn is_below(a: &[u8], b: &[u8]) -> bool
    requires { length a.now ≤ key_limit }
    ensures { result ≡ follows (after_key a.now) b.now }
{
    let place = critical(a, b);
    nibble(a, place) < nibble(b, place)
}

fn includes(mode: Mode) -> bool
    ensures { result ≡ is_inclusive mode }
{
    mode == Mode::Inclusive
}

// The page after a key. A plain listing begins past the prefix, too: past the higher of the two.
fn list_after(
    store: &[u8],
    h: Header,
    prefix: &[u8],
    mode: Mode,
    after: &[u8],
    n: usize,
    out: &mut [u8],
) -> Result<Page, NotAStore>
    requires { (start h.capacity ≤ length store.now) × (length prefix.now ≤ key_limit) × (length after.now ≤ key_limit) × (entry_limit * n ≤ length out.old) }
    ensures { Did (next_in store.now h prefix.now mode after.now n out.old) result out.new }
{
    if includes(mode) {
        return list(store, h, prefix, after, false, n, out);
    }
    if is_below(after, prefix) {
        return list(store, h, prefix, prefix, false, n, out);
    }
    list(store, h, prefix, after, false, n, out)
}

pub fn first_page(
    store: &[u8],
    prefix: &[u8],
    mode: Mode,
    n: u32,
    out: &mut [u8],
) -> Result<Page, PageError>
    ensures promise { FirstPage layout prefix.now (mode_of mode) n store.now out.old out.new (page_reply result) }
    ensures is { Did (first_call prefix.now mode n store.now out.old) result out.new }
{
    let h = read_head(store)?;
    if prefix.len() > KEY_LIMIT {
        return Err(PageError::Key);
    }
    if count_wrong(n, out.len()) {
        return Err(PageError::Count);
    }
    Ok(list(store, h, prefix, prefix, includes(mode), n as usize, out)?)
}

pub fn next_page(
    store: &[u8],
    prefix: &[u8],
    mode: Mode,
    after: &[u8],
    n: u32,
    out: &mut [u8],
) -> Result<Page, PageError>
    ensures promise { NextPage layout prefix.now (mode_of mode) after.now n store.now out.old out.new (page_reply result) }
    ensures is { Did (next_call prefix.now mode after.now n store.now out.old) result out.new }
{
    let h = read_head(store)?;
    if prefix.len() > KEY_LIMIT || after.len() > KEY_LIMIT {
        return Err(PageError::Key);
    }
    if count_wrong(n, out.len()) {
        return Err(PageError::Count);
    }
    Ok(list_after(store, h, prefix, mode, after, n as usize, out)?)
}

// Listings: pages fetched one after the other, and their entries written as lines. Output goes at the start of a lent slice, and its length comes back, as in
// `line`. The key's buffer of 64 bytes stands in contracts: a lent slice has no type for its least length. A page is read as page_text and last_at read it,
// which are defined on any bytes: where a key would be longer than 64 bytes, each function ends by a test of its own, since a helper could not return from it.
ghost use Rattle.std.specs.Prelude.{◌≡◌, ◌+◌, ◌*◌, ◌≤◌, ◌<◌, length, take};
ghost use Rattle.model.specs.Page.{start, after_key};
ghost use Rattle.index_spec.specs.Layout.{layout};
ghost use Rattle.index_spec.specs.Replies.{mode_of};
ghost use Rattle.line.specs.Line;
ghost use Rattle.listings.specs.Answered.{Answered};
ghost use Rattle.line.specs.Code.{Wrote};
ghost use Rattle.listings.specs.PageText.{page_text, last_at, key_at, Kept};
ghost use Rattle.listings.specs.Listing.{output_room, WasShown, IsListed};

use fields::big::read;
use index::pages::{Mode, Page, PageError, first_page, next_page};
use line::writing::{Answer, put_answer, put_entry};

// More than the longest line of an entry.
const LINE_ROOM: usize = 141;

// The lines of the longest listing: a store of 65,536 bytes has 511 keys.
const LINES_ROOM: usize = LINE_ROOM * 511;

// The longest answer: a listing's lines, and the longest other line behind them.
pub const OUTPUT_ROOM: usize = LINES_ROOM + 11;

// The entries that a page is asked for.
const PAGE: usize = 16;

// The lines of the first `count` entries of a page, each written directly after the one before it: a recursion, as `page_text` is, since an entry's size tells
// where the next one stands.
fn put_lines(count: usize, page: &[u8], out: &mut [u8]) -> usize
    requires { (74 * count ≤ length page.now) × (141 * count ≤ length out.old) }
    ensures { Wrote (page_text count page.now) out.old out.new result }
{
    if count == 0 {
        return 0;
    }
    let k = usize::from(page[2]);
    if 64 < k {
        return 0;
    }
    let e = k + 3;
    let v = read::<4>(page, k + 6);
    let n = put_entry(&page[3..e], v, out);
    let rest = k + 10;
    let m = put_lines(count - 1, &page[rest..], &mut out[n..]);
    n + m
}

// Where the last of the first `count` entries of a page stands.
fn last_entry(count: usize, page: &[u8]) -> usize
    requires { (1 ≤ count) × (74 * count ≤ length page.now) }
    ensures is { result ≡ last_at count page.now }
    ensures within { result + 74 ≤ 74 * count }
{
    if count < 2 {
        return 0;
    }
    let k = usize::from(page[2]);
    if 64 < k {
        return 0;
    }
    let rest = k + 10;
    rest + last_entry(count - 1, &page[rest..])
}

// The key of the entry at a place of a page goes to a buffer. The answer is its size.
fn keep_key(page: &[u8], at: usize, key: &mut [u8]) -> usize
    requires { (at + 74 ≤ length page.now) × (64 ≤ length key.old) }
    ensures { Kept (key_at page.now at) key.old key.new result }
{
    let k = usize::from(page[at + 2]);
    if 64 < k {
        return 0;
    }
    let a = at + 3;
    let e = a + k;
    key[..k].copy_from_slice(&page[a..e]);
    k
}

// What was shown of a page: the bytes of its lines, and, if there are more entries, the size of the last key, which is kept.
#[derive(Clone, Copy, Debug, PartialEq, Eq)]
pub struct Shown {
    pub bytes: usize,
    pub next: Option<usize>,
}

// The lines of a page, and its last key kept for the next one.
fn show(paged: Result<Page, PageError>, page: &[u8], key: &mut [u8], out: &mut [u8]) -> Shown
    requires { (1184 ≤ length page.now) × (64 ≤ length key.old) }
    ensures { WasShown paged page.now key.new out.old out.new result }
{
    let nothing = Shown {
        bytes: 0,
        next: None,
    };
    let Ok(given) = paged else {
        return nothing;
    };
    let entries = given.entries;
    let end = given.end;
    if PAGE < entries || out.len() < LINE_ROOM * entries {
        return nothing;
    }
    let bytes = put_lines(entries, page, out);
    if end || entries == 0 {
        return Shown { bytes, next: None };
    }
    let size = keep_key(page, last_entry(entries, page), key);
    Shown {
        bytes,
        next: Some(size),
    }
}

// The entries past the key that is kept, page by page. A page before the last one has PAGE entries, so there are at most `turns` pages.
fn list_rest(
    store: &[u8],
    prefix: &[u8],
    mode: Mode,
    turns: usize,
    size: usize,
    key: &mut [u8],
    page: &mut [u8],
    out: &mut [u8],
) -> usize
    requires { (size ≤ 64) × (64 ≤ length key.old) × (1184 ≤ length page.old) × (length out.old ≤ output_room) }
    ensures { IsListed prefix.now mode (after_key (take size key.old)) turns store.now out.old out.new result }
{
    if turns == 0 {
        return 0;
    }
    let paged = next_page(store, prefix, mode, &key[..size], PAGE as u32, page);
    let s = show(paged, page, key, out);
    let n = s.bytes;
    match s.next {
        None => n,
        Some(k) => n + list_rest(store, prefix, mode, turns - 1, k, key, page, &mut out[n..]),
    }
}

// All pages, which are at most 32: a store has 511 keys at most. The rest after the first page is added as in list_rest: a helper for both would call list_rest
// and be called by it, and its measure would have to be shown for the two.
fn list_all(store: &[u8], prefix: &[u8], mode: Mode, out: &mut [u8]) -> usize
    requires { length out.old ≤ output_room }
    ensures { IsListed prefix.now mode start 32 store.now out.old out.new result }
{
    let mut page = [0u8; 1184];
    let mut key = [0u8; 64];
    let paged = first_page(store, prefix, mode, PAGE as u32, &mut page);
    let s = show(paged, &page, &mut key, out);
    let n = s.bytes;
    match s.next {
        None => n,
        Some(k) => n
            + list_rest(
                store,
                prefix,
                mode,
                31,
                k,
                &mut key,
                &mut page,
                &mut out[n..],
            ),
    }
}

// A listing and its `end`.
pub fn answer_list(store: &[u8], prefix: &[u8], mode: Mode, out: &mut [u8]) -> usize
    requires { (length store.now ≤ 65536) × (length prefix.now ≤ 64) × (length out.old ≡ output_room) }
    ensures { Answered layout (Line.command (Line.list (mode_of mode) prefix.now)) store.now store.now out.old out.new result }
{
    let n = list_all(store, prefix, mode, &mut out[..LINES_ROOM]);
    let m = put_answer(Answer::End, &mut out[n..]);
    n + m
}

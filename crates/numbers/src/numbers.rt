// Each call's answer as a number, as document 01's table numbers it, and what stands beside it: C has no Result, and bindings/c/ponybollard.h has these
// numbers. A `From` for u32 would have to stand in the errors' own crates, which know nothing of C, and one for a mode of C's yes or no in `index_spec`.
ghost use Rattle.std.specs.Prelude.{ℕ, ◌≡◌};
ghost use Rattle.index_spec.specs.Replies.{insert_reply, get_reply, page_reply};
ghost use Rattle.numbers.specs.Handed.{answered, room_number, store_number, insert_number as insert_refusal, lookup_number, page_number, found_empty, mode_named};

use index::create::NoRoom;
use index::get::LookupError;
use index::insert::{InsertError, Inserted};
use index::pages::{Mode, Page, PageError};
use node::NotAStore;

const DONE: u32 = 0;

const REPLACED: u32 = 1;

const STORE: u32 = 10;

const KEY: u32 = 11;

const HEIGHT: u32 = 12;

const FULL: u32 = 13;

const ABSENT: u32 = 14;

const COUNT: u32 = 15;

const ROOM: u32 = 16;

// A refusal, which has a number in the table.
pub trait Refusal {
    ghost numbered: { Self → ℕ };

    fn number(self) -> u32
        ensures { result ≡ numbered self };
}

impl Refusal for NoRoom {
    ghost numbered = { room_number };

    fn number(self) -> u32 {
        ROOM
    }
}

impl Refusal for NotAStore {
    ghost numbered = { store_number };

    fn number(self) -> u32 {
        STORE
    }
}

impl Refusal for InsertError {
    ghost numbered = { insert_refusal };

    fn number(self) -> u32 {
        match self {
            InsertError::Store => STORE,
            InsertError::Key => KEY,
            InsertError::Height => HEIGHT,
            InsertError::Full => FULL,
        }
    }
}

impl Refusal for LookupError {
    ghost numbered = { lookup_number };

    fn number(self) -> u32 {
        match self {
            LookupError::Store => STORE,
            LookupError::Key => KEY,
            LookupError::Absent => ABSENT,
        }
    }
}

impl Refusal for PageError {
    ghost numbered = { page_number };

    fn number(self) -> u32 {
        match self {
            PageError::Store => STORE,
            PageError::Key => KEY,
            PageError::Count => COUNT,
        }
    }
}

// The number of an answer that is done or a refusal.
pub fn number<T: Copy, E: Refusal + Copy>(answer: Result<T, E>) -> u32
    ensures { result ≡ answered E.numbered answer }
{
    match answer {
        Ok(_) => DONE,
        Err(e) => e.number(),
    }
}

pub fn insert_number(inserted: Result<Inserted, InsertError>) -> u32
    ensures { result ≡ (insert_reply inserted).answer }
{
    match inserted {
        Ok(Inserted::New) => DONE,
        Ok(Inserted::Replaced) => REPLACED,
        Err(e) => e.number(),
    }
}

// Whether the store was found empty: no with a refusal.
pub fn found_empty(empty: Result<bool, NotAStore>) -> bool
    ensures { result ≡ found_empty empty }
{
    empty.unwrap_or(false)
}

// The value found: 0 with a refusal.
pub fn found_value(got: Result<u32, LookupError>) -> u32
    ensures { result ≡ (get_reply got).value }
{
    got.unwrap_or(0)
}

// The page given: no entries, no bytes and no end mark with a refusal.
pub fn found_page(page: Result<Page, PageError>) -> Page
    ensures entries { result.entries ≡ (page_reply page).count }
    ensures bytes { result.bytes ≡ (page_reply page).value }
    ensures end { result.end ≡ (page_reply page).end }
{
    page.unwrap_or(Page {
        entries: 0,
        bytes: 0,
        end: false,
    })
}

pub fn mode_named(inclusive: bool) -> Mode
    ensures { result ≡ mode_named inclusive }
{
    if inclusive {
        Mode::Inclusive
    } else {
        Mode::Plain
    }
}

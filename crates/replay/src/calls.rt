// The records of a script carried out on a store of raw bytes, which is the first `len` bytes of the space `all`, each answer put behind those before it. The
// space, the room for a page and the output go side by side: tried as one struct: the borrow checker does not cover a call that is lent two parts of it.
use crate::input::{Asked, Record, part};
use crate::output::Output;
use crate::space::{GUARD, hash, write};
use index::get::LookupError;
use index::pages::{Page, PageError, first_page, next_page};
use node::NotAStore;
use numbers::numbers::{found_empty, found_page, found_value, insert_number, number};

const BLANK: u8 = 0x5A;

fn put_got(out: &mut Output, got: Result<u32, LookupError>) {
    out.put_number(number(got));
    out.put::<4>(u64::from(found_value(got)));
}

fn put_empty(out: &mut Output, empty: Result<bool, NotAStore>) {
    out.put_number(number(empty));
    out.put1(u8::from(found_empty(empty)));
}

// What is told of a page, its bytes, and whether the rest of its output is untouched.
fn put_page(out: &mut Output, page: &[u8], paged: Result<Page, PageError>) {
    let given = found_page(paged);
    out.put_number(number(paged));
    out.put::<2>(given.entries as u64);
    out.put::<4>(given.bytes as u64);
    out.put1(u8::from(given.end));
    if given.bytes <= page.len() {
        out.append(&page[..given.bytes]);
        let rest = &page[given.bytes..];
        out.put1(u8::from(rest.iter().all(|b| *b == BLANK)));
    }
}

// The record on a store.
fn call(store: &mut [u8], page: &mut [u8], out: &mut Output, record: Record) {
    match record {
        Record::Write(at, bytes) => write(store, at, bytes),
        Record::Dump(at, n) => out.append(part(store, at, n)),
        Record::Create(limit) => out.put_number(number(index::create::create(store, limit))),
        Record::Check => out.put_number(number(index::check::check(store))),
        Record::IsEmpty => put_empty(out, index::is_empty::is_empty(store)),
        Record::SetLimit(limit) => out.put_number(number(index::set_limit::set_limit(
            store, limit,
        ))),
        Record::Insert(key, value) => out.put_number(insert_number(index::insert::insert(
            store, key, value,
        ))),
        Record::Get(key) => put_got(out, index::get::get(store, key)),
        Record::Overwrite(key, value) => out.put_number(number(index::overwrite::overwrite(
            store, key, value,
        ))),
        Record::Remove(key) => out.put_number(number(index::remove::remove(store, key))),
        Record::FirstPage(asked) => {
            let paged = first_page(store, asked.prefix, asked.mode, asked.size, page);
            put_page(out, page, paged);
        }
        Record::NextPage(asked, after) => {
            let paged = next_page(store, asked.prefix, asked.mode, after, asked.size, page);
            put_page(out, page, paged);
        }
        Record::New(_) | Record::Hash | Record::Skipped => {}
    }
}

// The room that a record asks for its page's bytes.
fn room(record: Record) -> usize {
    match record {
        Record::FirstPage(asked) | Record::NextPage(asked, _) => asked.room,
        _ => 0,
    }
}

// The record on the store of so many bytes, which answers nothing where the space is shorter.
fn on_store(all: &mut [u8], len: usize, page: &mut [u8], out: &mut Output, record: Record) {
    if len <= all.len() {
        let n = page.len().min(room(record));
        page[..n].fill(BLANK);
        call(&mut all[..len], &mut page[..n], out, record);
    }
}

// The bytes of a store of so many bytes and of the guard behind it, as far as there is room.
fn guarded(all: &[u8], len: usize) -> usize {
    if all.len() < GUARD {
        return 0;
    }
    all.len().min(len.saturating_add(GUARD))
}

// The record is carried out. The answer is the size of the store from then on.
pub fn answer(
    all: &mut [u8],
    len: usize,
    page: &mut [u8],
    out: &mut Output,
    record: Record,
) -> usize {
    match record {
        Record::New(size) => {
            let e = guarded(all, size);
            if e <= all.len() {
                all[..e].fill(0xA5);
            }
            size
        }
        Record::Hash => {
            let h = hash(part(all, 0, guarded(all, len)));
            out.put::<4>(h);
            out.put::<4>(h / 4294967296);
            len
        }
        Record::Skipped => len,
        _ => {
            on_store(all, len, page, out, record);
            len
        }
    }
}

// The public calls for programs in C, C++ and Rust, each under its plain name: a slice is a pointer and a length, an answer is its number, and what stands
// beside an answer goes through a reference, which is 0 or no with a refusal. Each has the contracts of the index's call: its promise, and what it does
// on any bytes (`is`). bindings/c/ponybollard.h declares them.
#![tactic(auto)]

ghost use Rattle.std.specs.Prelude.{◌≡◌};
ghost use Rattle.trie_spec.specs.Writes.{Did};
ghost use Rattle.promises.specs.Promises.{Create, Check, IsEmpty, SetLimit, Insert, Get, Overwrite, Remove, FirstPage, NextPage};
ghost use Rattle.index_spec.specs.Layout.{layout};
ghost use Rattle.index_spec.specs.Replies.{create_reply, empty_reply, limit_reply, insert_reply, get_reply, changed_reply, page_reply, mode_of};
ghost use Rattle.index_spec.specs.Calls.{create_call, empty_call, limit_call, insert_call, get_call, overwrite_call, remove_call};
ghost use Rattle.index_spec.specs.Pages.{first_call, next_call};
ghost use Rattle.numbers.specs.Handed.{bare, valued, told, paged, mode_named, replied};

use numbers::numbers::{found_empty, found_page, found_value, insert_number, mode_named, number};

// A new, empty store in the bytes lent.
#[tactic(auto, using(crate::proofs::HandedLaws::create_promise, crate::proofs::HandedLaws::create_is))]
#[unsafe(no_mangle)]
pub extern "C" fn ponybollard_create(store: &mut [u8], limit: u16) -> u32
    ensures promise { Create layout limit store.old store.new (bare result) }
    ensures is { Did (replied create_reply (create_call limit store.old)) (bare result) store.new }
{
    number(index::create::create(store, limit))
}

// Whether the bytes are a store that the calls keep.
#[tactic(auto, using(crate::proofs::HandedLaws::check_promise))]
#[unsafe(no_mangle)]
pub extern "C" fn ponybollard_check(store: &[u8]) -> u32
    ensures { Check layout store.now (bare result) }
{
    number(index::check::check(store))
}

// Whether the store has no key.
#[tactic(auto, using(crate::proofs::HandedLaws::empty_promise, crate::proofs::HandedLaws::empty_is))]
#[unsafe(no_mangle)]
pub extern "C" fn ponybollard_is_empty(store: &[u8], empty: &mut bool) -> u32
    ensures promise { IsEmpty layout store.now (told result empty.new) }
    ensures is { told result empty.new ≡ empty_reply (empty_call store.now) }
{
    let found = index::is_empty::is_empty(store);
    *empty = found_empty(found);
    number(found)
}

// Another height limit.
#[tactic(auto, using(crate::proofs::HandedLaws::limit_promise, crate::proofs::HandedLaws::limit_is))]
#[unsafe(no_mangle)]
pub extern "C" fn ponybollard_set_limit(store: &mut [u8], limit: u16) -> u32
    ensures promise { SetLimit layout limit store.old store.new (bare result) }
    ensures is { Did (replied limit_reply (limit_call limit store.old)) (bare result) store.new }
{
    number(index::set_limit::set_limit(store, limit))
}

// A key goes in with its value; a stored key gets the new value.
#[tactic(auto, using(crate::proofs::HandedLaws::insert_promise, crate::proofs::HandedLaws::insert_is))]
#[unsafe(no_mangle)]
pub extern "C" fn ponybollard_insert(store: &mut [u8], key: &[u8], value: u32) -> u32
    ensures promise { Insert layout key.now value store.old store.new (bare result) }
    ensures is { Did (replied insert_reply (insert_call key.now value store.old)) (bare result) store.new }
{
    insert_number(index::insert::insert(store, key, value))
}

// The value of a stored key.
#[tactic(auto, using(crate::proofs::HandedLaws::get_promise, crate::proofs::HandedLaws::get_is))]
#[unsafe(no_mangle)]
pub extern "C" fn ponybollard_get(store: &[u8], key: &[u8], value: &mut u32) -> u32
    ensures promise { Get layout key.now store.now (valued result value.new) }
    ensures is { valued result value.new ≡ get_reply (get_call key.now store.now) }
{
    let got = index::get::get(store, key);
    *value = found_value(got);
    number(got)
}

// A stored key gets another value.
#[tactic(auto, using(crate::proofs::HandedLaws::overwrite_promise, crate::proofs::HandedLaws::overwrite_is))]
#[unsafe(no_mangle)]
pub extern "C" fn ponybollard_overwrite(store: &mut [u8], key: &[u8], value: u32) -> u32
    ensures promise { Overwrite layout key.now value store.old store.new (bare result) }
    ensures is { Did (replied changed_reply (overwrite_call key.now value store.old)) (bare result) store.new }
{
    number(index::overwrite::overwrite(store, key, value))
}

// A stored key is taken out.
#[tactic(auto, using(crate::proofs::HandedLaws::remove_promise, crate::proofs::HandedLaws::remove_is))]
#[unsafe(no_mangle)]
pub extern "C" fn ponybollard_remove(store: &mut [u8], key: &[u8]) -> u32
    ensures promise { Remove layout key.now store.old store.new (bare result) }
    ensures is { Did (replied changed_reply (remove_call key.now store.old)) (bare result) store.new }
{
    number(index::remove::remove(store, key))
}

// The first page of a listing.
#[tactic(auto, using(crate::proofs::HandedLaws::first_promise, crate::proofs::HandedLaws::first_is))]
#[unsafe(no_mangle)]
pub extern "C" fn ponybollard_first_page(
    store: &[u8],
    prefix: &[u8],
    inclusive: bool,
    size: u32,
    out: &mut [u8],
    entries: &mut usize,
    bytes: &mut usize,
    end: &mut bool,
) -> u32
    ensures promise { FirstPage layout prefix.now (mode_of (mode_named inclusive)) size store.now out.old out.new (paged result entries.new bytes.new end.new) }
    ensures is { Did (replied page_reply (first_call prefix.now (mode_named inclusive) size store.now out.old)) (paged result entries.new bytes.new end.new) out.new }
{
    let page = index::pages::first_page(store, prefix, mode_named(inclusive), size, out);
    let found = found_page(page);
    *entries = found.entries;
    *bytes = found.bytes;
    *end = found.end;
    number(page)
}

// The page after a key.
#[tactic(auto, using(crate::proofs::HandedLaws::next_promise, crate::proofs::HandedLaws::next_is))]
#[unsafe(no_mangle)]
pub extern "C" fn ponybollard_next_page(
    store: &[u8],
    prefix: &[u8],
    inclusive: bool,
    after: &[u8],
    size: u32,
    out: &mut [u8],
    entries: &mut usize,
    bytes: &mut usize,
    end: &mut bool,
) -> u32
    ensures promise { NextPage layout prefix.now (mode_of (mode_named inclusive)) after.now size store.now out.old out.new (paged result entries.new bytes.new end.new) }
    ensures is { Did (replied page_reply (next_call prefix.now (mode_named inclusive) after.now size store.now out.old)) (paged result entries.new bytes.new end.new) out.new }
{
    let page = index::pages::next_page(store, prefix, mode_named(inclusive), after, size, out);
    let found = found_page(page);
    *entries = found.entries;
    *bytes = found.bytes;
    *end = found.end;
    number(page)
}

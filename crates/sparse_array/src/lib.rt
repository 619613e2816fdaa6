// The port of sparse_array.rs: a sparse array of 17 slots over a lent part of 55 bytes, a bitmap of 4 bytes and then the items, 3 bytes each, packed.
// The place of a slot is the number of present slots below it. Every function takes any 55 bytes. They come as a slice and not as an array: of a
// `&mut [u8; 55]` out of a part of a store (`as_mut_array`) a proof learns, once it has come back, no more than its length. The functions that
// only read take what the writers take, so that one part of a store serves both.
#![tactic(auto)]

mod items;

ghost use Rattle.std.specs.Prelude.{◌≡◌, eqb, length};
ghost use Rattle.bitmap.specs.Entries.{lookup, nth, erase, head as head_of};
ghost use Rattle.sparse_array.specs.Array.{size, entries, cleared};
ghost use Rattle.sparse_array.specs.Answers.{got, got_or_head, here, placed, WasSet, WasRemoved, WasPopped};

use bitmap::bits::{count, lowest, place, present, with, without};
use items::{bitmap, close, item, open, put_bitmap, put_item};

// A store of an item is new at its slot, or over the one that is there. `Inserted` of trie_spec has the same two: the docs name both, and an array knows
// nothing of a trie.
#[derive(Clone, Copy, Debug, PartialEq, Eq)]
pub enum Put {
    New,
    Replaced,
}

// The slot is over 16, or not present where a present one is asked for.
#[derive(Clone, Copy, Debug, PartialEq, Eq)]
pub struct NoSlot;

// Whether a slot is present.
#[tactic(auto, using(crate::proofs::Contracts::has_beyond, crate::proofs::Contracts::has_is))]
pub fn has_sparse_index(s: &[u8], slot: u8) -> bool
    requires { length s.now ≡ size }
    ensures { result ≡ here (lookup slot (entries s.now)) }
{
    if slot > 16 {
        return false;
    }
    present(bitmap(s), slot)
}

// The place of a slot, present or not: the number of present slots below it.
#[tactic(auto, using(crate::proofs::Contracts::place_is))]
pub fn actual_index(s: &[u8], slot: u8) -> Option<usize>
    requires { length s.now ≡ size }
    ensures { result ≡ placed slot (entries s.now) }
{
    if slot > 16 {
        return None;
    }
    Some(place(bitmap(s), slot))
}

// The item of a slot.
#[tactic(auto, using(crate::proofs::Contracts::get_beyond, crate::proofs::Contracts::get_missing, crate::proofs::Contracts::get_found))]
pub fn get(s: &[u8], slot: u8) -> Option<u32>
    requires { length s.now ≡ size }
    ensures { result ≡ got (lookup slot (entries s.now)) }
{
    if slot > 16 {
        return None;
    }
    let bits = bitmap(s);
    if !present(bits, slot) {
        return None;
    }
    Some(item(s, place(bits, slot)))
}

// The item at a place: from place 0 on these are the items of all slots, in their order.
#[tactic(auto, using(crate::proofs::Contracts::at_place, crate::proofs::Contracts::past_place))]
pub fn item_at(s: &[u8], place: usize) -> Option<u32>
    requires { length s.now ≡ size }
    ensures { result ≡ got (nth place (entries s.now)) }
{
    if count(bitmap(s)) <= place {
        return None;
    }
    Some(item(s, place))
}

// The item of a slot, or of the lowest present slot where that one is missing.
#[tactic(auto, using(crate::proofs::Contracts::get_or_head_is))]
pub fn get_or_head(s: &[u8], slot: u8) -> Option<u32>
    requires { length s.now ≡ size }
    ensures { result ≡ got_or_head slot (entries s.now) }
{
    if slot > 16 {
        return None;
    }
    get(s, slot).or_else(|| head(s))
}

// An item put at a slot: a new one goes in between, and the later items move up.
#[tactic(auto, using(crate::proofs::Contracts::set_beyond, crate::proofs::Contracts::place_up_to, crate::proofs::Contracts::has_room))]
pub fn set(s: &mut [u8], slot: u8, value: u32) -> Result<Put, NoSlot>
    requires { length s.old ≡ size }
    ensures { WasSet slot value s.old s.new result }
{
    if slot > 16 {
        return Err(NoSlot);
    }
    let bits = bitmap(s);
    let at = place(bits, slot);
    if present(bits, slot) {
        put_item(s, at, value);
        return Ok(Put::Replaced);
    }
    let n = count(bits);
    open(s, at, n);
    put_item(s, at, value);
    put_bitmap(s, with(bits, slot));
    Ok(Put::New)
}

// A slot taken out: the later items move down.
pub fn remove(s: &mut [u8], slot: u8) -> Result<(), NoSlot>
    requires { length s.old ≡ size }
    ensures { WasRemoved slot s.old s.new result }
{
    if slot > 16 {
        return Err(NoSlot);
    }
    let bits = bitmap(s);
    if !present(bits, slot) {
        return Err(NoSlot);
    }
    let at = place(bits, slot);
    let n = count(bits);
    close(s, at, n);
    put_bitmap(s, without(bits, slot));
    Ok(())
}

// The item of the lowest present slot but for one: what is left of two slots once one is taken out.
#[tactic(auto, using(crate::proofs::Contracts::head_beyond, crate::proofs::Contracts::head_missing, crate::proofs::Contracts::other_second, crate::proofs::Contracts::other_first))]
pub fn head_without(s: &[u8], slot: u8) -> Option<u32>
    requires { length s.now ≡ size }
    ensures { result ≡ got (head_of (erase slot (entries s.now))) }
{
    if slot > 16 {
        return head(s);
    }
    let bits = bitmap(s);
    if !present(bits, slot) {
        return head(s);
    }
    if place(bits, slot) == 0 {
        return item_at(s, 1);
    }
    head(s)
}

// The item of the lowest present slot.
#[tactic(auto, using(crate::proofs::Contracts::head_is))]
pub fn head(s: &[u8]) -> Option<u32>
    requires { length s.now ≡ size }
    ensures { result ≡ got (head_of (entries s.now)) }
{
    item_at(s, 0)
}

// The lowest present slot taken out, with its item.
#[tactic(auto, using(crate::proofs::Contracts::none_in, crate::proofs::Contracts::pop_empty, crate::proofs::Contracts::some_in))]
pub fn pop(s: &mut [u8]) -> Option<u32>
    requires { length s.old ≡ size }
    ensures { WasPopped s.old s.new result }
{
    let first = head(s)?;
    let bits = bitmap(s);
    close(s, 0, count(bits));
    put_bitmap(s, without(bits, lowest(bits)));
    Some(first)
}

// The number of present slots.
#[tactic(auto, using(crate::proofs::Contracts::len_is))]
pub fn len(s: &[u8]) -> usize
    requires { length s.now ≡ size }
    ensures { result ≡ length (entries s.now) }
{
    count(bitmap(s))
}

pub fn is_empty(s: &[u8]) -> bool
    requires { length s.now ≡ size }
    ensures { result ≡ eqb (length (entries s.now)) 0 }
{
    len(s) == 0
}

// No slot is present any more.
#[tactic(auto, unfolding(crate::specs::Array::cleared))]
pub fn clear(s: &mut [u8])
    requires { length s.old ≡ size }
    ensures { s.new ≡ cleared s.old }
{
    put_bitmap(s, 0);
}

// The walk over what a page gives. It stops at the first entry past those that are wanted, and at the first thing that is wrong. So whatever the bytes, each
// way down ends at an entry that is given or ends the walk, but for the one to the key that the page begins at; and a page costs no more than its entries and
// two more, each with the branches above it.
// That the capacity fits the store stands in each contract: `emit` and `emit_after`, which docs/TRACE.md names, take any store and number that fit, and a
// type with that invariant would ask more of their callers. No struct of both for the private ones:
// each `ensures` would name its two fields, and each call of `node`, which takes a store and a number, would take it apart. `number_in
// .. < capacity` stands beside it: a link's number is tested against a capacity that is no part of the link.
ghost use Rattle.std.specs.Prelude.{◌≡◌, ◌≤◌, ◌<◌, length};
ghost use Rattle.std.proofs.Math.Option.{some};
ghost use Rattle.node.specs.Layout.{start};
ghost use Rattle.node.specs.Child.{number_in};
ghost use Rattle.walk.specs.Walk.{entry_in, sheet, HasRoom, is_stopped, put, puts, wrongly, below, after};

use crate::entry::write_entry;
use lookup::keys::nibble;
use node::NotAStore;
use node::branch::{child_at, child_count, child_place, get_child};
use node::child::{Child, LeafNo, Link};

// Whether a page goes on. No Result: what was given before the walk met what no tree has is given all the same.
#[derive(Clone, Copy, Debug, PartialEq, Eq)]
pub enum Stop {
    Going,
    // there is a further entry, which is not wanted
    Further,
    // the store holds no tree
    Wrong,
}

// How far a page is: the bytes written, and the entries that are still wanted.
#[derive(Clone, Copy, Debug, PartialEq, Eq)]
pub struct Progress {
    pub at: usize,
    pub left: usize,
    pub stop: Stop,
}

fn stopped(p: Progress) -> bool
    ensures { result ≡ is_stopped p.stop }
{
    p.stop != Stop::Going
}

// The entry of a leaf is written, while one is wanted.
fn give(store: &[u8], capacity: u16, leaf: LeafNo, out: &mut [u8], p: Progress) -> Progress
    requires { (start capacity ≤ length store.now) × (leaf.0 < capacity) × (HasRoom out.old p) }
    ensures is { sheet out.new result ≡ put (some (entry_in store.now leaf.0)) (sheet out.old p) }
    ensures room { HasRoom out.new result }
{
    if stopped(p) {
        return p;
    }
    if p.left == 0 {
        return Progress {
            stop: Stop::Further,
            ..p
        };
    }
    let size = write_entry(store, leaf, &mut out[p.at..]);
    Progress {
        at: p.at + size,
        left: p.left - 1,
        stop: Stop::Going,
    }
}

// The page as it is where the walk meets what no tree has.
fn wrong(p: Progress) -> Progress
    ensures { result ≡ wrongly p }
{
    if stopped(p) {
        return p;
    }
    Progress {
        stop: Stop::Wrong,
        ..p
    }
}

// All entries below a link, or those of a branch's children from a place on. A path has at most `deep` branches.
pub fn emit(
    store: &[u8],
    capacity: u16,
    link: Link,
    place: usize,
    deep: usize,
    out: &mut [u8],
    progress: Progress,
) -> Progress
    requires { (start capacity ≤ length store.now) × (number_in link.child < capacity) × (HasRoom out.old progress) }
    ensures is { sheet out.new result ≡ puts (below store.now capacity deep place link) (sheet out.old progress) }
    ensures room { HasRoom out.new result }
{
    match link.child {
        Child::Leaf(n) => give(store, capacity, n, out, progress),
        Child::Branch(b) => {
            if deep == 0 {
                return wrong(progress);
            }
            let count = child_count(store, b);
            if count == 0 {
                return wrong(progress);
            }
            let mut p = progress;
            for i in place..count {
                let Ok(Some(next)) = child_at(store, b, i, capacity) else {
                    return wrong(p);
                };
                match next.child {
                    Child::Leaf(n) => {
                        p = give(store, capacity, n, out, p);
                    }
                    Child::Branch(_b) => {
                        p = emit(store, capacity, next, 0, deep - 1, out, p);
                    }
                }
                if stopped(p) {
                    return p;
                }
            }
            p
        }
    }
}

// The entries below a link from a key on, which need not be stored. `critical` is the key's critical position with the closest leaf to it, and `up` says
// whether that leaf is given. Down to that position the leaves agree with the key, so the slots below its nibble lie before it and those above it lie past
// it; what stands past that position lies with the closest leaf.
pub fn emit_after(
    store: &[u8],
    capacity: u16,
    key: &[u8],
    critical: usize,
    up: bool,
    link: Link,
    deep: usize,
    out: &mut [u8],
    progress: Progress,
) -> Progress
    requires { (start capacity ≤ length store.now) × (number_in link.child < capacity) × (HasRoom out.old progress) }
    ensures is { sheet out.new result ≡ puts (after store.now capacity key.now critical up deep link) (sheet out.old progress) }
    ensures room { HasRoom out.new result }
{
    match link.child {
        Child::Leaf(n) => {
            if up {
                return give(store, capacity, n, out, progress);
            }
            progress
        }
        Child::Branch(b) => {
            if deep == 0 {
                return wrong(progress);
            }
            let position = link.position as usize;
            if critical < position {
                if up {
                    return emit(store, capacity, link, 0, deep, out, progress);
                }
                return progress;
            }
            let slot = nibble(key, position);
            match get_child(store, b, slot, capacity) {
                Ok(Some(next)) => {
                    let p = emit_after(
                        store,
                        capacity,
                        key,
                        critical,
                        up,
                        next,
                        deep - 1,
                        out,
                        progress,
                    );
                    if stopped(p) {
                        return p;
                    }
                    let place = child_place(store, b, slot) + 1;
                    emit(store, capacity, link, place, deep, out, p)
                }
                Ok(None) => {
                    let place = child_place(store, b, slot);
                    emit(store, capacity, link, place, deep, out, progress)
                }
                Err(NotAStore) => wrong(progress),
            }
        }
    }
}

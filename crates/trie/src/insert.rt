// Insertion: the closest leaf, the critical position, and, where its end is not known by then, a second descent to where the new leaf goes.
// That the capacity fits the store stands in each contract: `insert`, which docs/TRACE.md names, takes any store and number that fit, and a type with that
// invariant would ask more of its callers; the private functions take what it has. The store is written, and named before and after, so that it is no part of
// `Entry`: the fact would have to be proved again after each write. Nor is what `EndsAt` and `Lies` say of the bytes an invariant of `Near`, which lookup
// answers with.
ghost use Rattle.std.specs.Prelude.{◌≡◌, ◌≤◌, ◌<◌, length, ◌≢◌};
ghost use Rattle.model.specs.Key.{key_limit};
ghost use Rattle.model.specs.Numbers.{most};
ghost use Rattle.node.specs.Layout.{start, Room};
ghost use Rattle.node.specs.Child.{number_in};
ghost use Rattle.node.specs.Leaf.{leaf_in};
ghost use Rattle.trie_spec.specs.Walk.{steps, first, walk, EndsAt, Within, Lies, Lands};
ghost use Rattle.trie_spec.specs.Writes.{Did, hung, joined, planted, forked, placed, put_beside, put_near, put_under, insert_in};

use crate::relink::relink;
use lookup::descent::{Near, descend, find_near};
use lookup::keys::{critical, nibble};
use node::NotAStore;
use node::branch::make_branch;
use node::child::{BranchNo, Child, LeafNo, Link, link_of};
use node::header::Header;
use node::leaf::{set_value, write_leaf};
use records::chain::take;
use trie_spec::descent::{Spot, Step, Walked};
pub use trie_spec::insert::{Inserted, PutError};

// What goes in: a key with its value, and the header of the store that takes it. It does not say that the header is that store's.
#[derive(Clone, Copy)]
struct Entry<'a> {
    head: Header,
    key: &'a [u8],
    value: u32,
    ghost few: { head.capacity ≤ most },
    ghost fits: { length key.now ≤ key_limit },
}

// Where a new key parts from its closest leaf's: the critical position, and that leaf's slot there.
#[derive(Clone, Copy)]
struct Parting {
    place: u8,
    other: u8,
}

// A new leaf, whose link goes to a spot that has none.
fn hang(store: &mut [u8], e: Entry, spot: Spot) -> Result<Inserted, PutError>
    requires { (start e.head.capacity ≤ length store.old) × (Within e.head.capacity spot) }
    ensures { Did (hung store.old e.entry.head e.entry.key.now e.entry.value spot) result store.new }
{
    let Some((n, after)) = take::<LeafNo>(store, e.head) else {
        return Err(PutError::Store);
    };
    write_leaf(store, n, e.key, e.value);
    let link = Link {
        child: Child::Leaf(n),
        position: 0,
    };
    relink(store, after, spot, link);
    Ok(Inserted::New)
}

// A branch over a new leaf and a link, in the order of their slots.
fn join(store: &mut [u8], branch: BranchNo, slot: u8, leaf: LeafNo, other: u8, link: Link)
    requires { (Room store.old branch.0) × (leaf.0 < most) × (number_in link.child < most) }
    ensures { store.new ≡ joined store.old branch.0 slot leaf.0 other link }
{
    let new = Link {
        child: Child::Leaf(leaf),
        position: 0,
    };
    if slot < other {
        make_branch(store, branch, slot, new, other, link);
    } else {
        make_branch(store, branch, other, link, slot, new);
    }
}

// The leaf, the branch over it and the link of a step, and the link to that branch.
fn plant(store: &mut [u8], e: Entry, leaf: LeafNo, branch: BranchNo, step: Step, parting: Parting)
    requires { (start e.head.capacity ≤ length store.old) × (leaf.0 < e.head.capacity) × (branch.0 < e.head.capacity) × (number_in step.child < e.head.capacity) × (Within e.head.capacity step.at) }
    ensures { store.new ≡ planted store.old e.entry.head e.entry.key.now e.entry.value leaf.0 branch.0 step parting.place parting.other }
{
    write_leaf(store, leaf, e.key, e.value);
    let place = parting.place;
    let slot = nibble(e.key, place as usize);
    join(store, branch, slot, leaf, parting.other, step.link());
    let link = Link {
        child: Child::Branch(branch),
        position: place,
    };
    relink(store, e.head, step.at, link);
}

// A new leaf, and a new branch over it and the link of a step.
fn fork(store: &mut [u8], e: Entry, step: Step, parting: Parting) -> Result<Inserted, PutError>
    requires { (start e.head.capacity ≤ length store.old) × (number_in step.child < e.head.capacity) × (Within e.head.capacity step.at) }
    ensures { Did (forked store.old e.entry.head e.entry.key.now e.entry.value step parting.place parting.other) result store.new }
{
    let Some((n, one)) = take::<LeafNo>(store, e.head) else {
        return Err(PutError::Store);
    };
    let Some((b, two)) = take::<BranchNo>(store, one) else {
        return Err(PutError::Store);
    };
    let after = Entry {
        head: two,
        key: e.key,
        value: e.value,
    };
    plant(store, after, n, b, step, parting);
    Ok(Inserted::New)
}

// A new key, by where the descent to its critical position ends.
fn put_new(
    store: &mut [u8],
    e: Entry,
    depth: usize,
    parting: Parting,
    walked: Walked,
) -> Result<Inserted, PutError>
    requires { (start e.head.capacity ≤ length store.old) × (Lies e.head.capacity walked) }
    ensures { Did (placed store.old e.entry.head e.entry.key.now e.entry.value depth parting.place parting.other (Ok walked)) result store.new }
{
    let h = e.head;
    match walked {
        Walked::Missing(b, s) => {
            if h.capacity <= h.leaves {
                return Err(PutError::Full);
            }
            hang(store, e, Spot::Under(b, s))
        }
        Walked::At(_met, step) => {
            if h.limit as usize <= depth {
                return Err(PutError::Height);
            }
            if h.capacity <= h.leaves {
                return Err(PutError::Full);
            }
            fork(store, e, step, parting)
        }
    }
}

// The descent to a stop position, whose end is known where no position of the way down reaches the stop.
fn descend_past(
    store: &[u8],
    e: Entry,
    root: Link,
    near: Near,
    stop: usize,
) -> Result<Walked, NotAStore>
    requires { (start e.head.capacity ≤ length store.now) × (number_in root.child < e.head.capacity) × (Lies e.head.capacity near.end) × (EndsAt store.now e.head.capacity e.key.now root near.end near.high) }
    ensures is { result ≡ walk store.now e.entry.head.capacity e.entry.key.now stop steps (first root) }
    ensures lies { Lands e.entry.head.capacity result }
{
    if (near.high as usize) < stop {
        return Ok(near.end);
    }
    descend(store, e.head.capacity, e.key, root, stop)
}

// A new key by its closest leaf.
fn put_beside(store: &mut [u8], e: Entry, root: Link, near: Near) -> Result<Inserted, PutError>
    requires { (start e.head.capacity ≤ length store.old) × (number_in root.child < e.head.capacity) × (near.leaf.0 < e.head.capacity) × (Lies e.head.capacity near.end) × (EndsAt store.old e.head.capacity e.key.now root near.end near.high) × (e.key.now ≢ (leaf_in store.old near.leaf.0).key) }
    ensures { Did (put_beside store.old e.entry.head e.entry.key.now e.entry.value root near.leaf.0 near.depth) result store.new }
{
    let leaf = near.leaf;
    let place = critical(e.key, node::leaf::key(store, leaf));
    let other = nibble(node::leaf::key(store, leaf), place);
    let walked = descend_past(store, e, root, near, place + 1)?;
    let parting = Parting {
        place: place as u8,
        other,
    };
    put_new(store, e, near.depth, parting, walked)
}

// A key by its closest leaf: the leaf's own, or a new one.
fn put_near(store: &mut [u8], e: Entry, root: Link, near: Near) -> Result<Inserted, PutError>
    requires { (start e.head.capacity ≤ length store.old) × (number_in root.child < e.head.capacity) × (near.leaf.0 < e.head.capacity) × (Lies e.head.capacity near.end) × (EndsAt store.old e.head.capacity e.key.now root near.end near.high) }
    ensures { Did (put_near store.old e.entry.head e.entry.key.now e.entry.value root near.leaf.0 near.depth) result store.new }
{
    let leaf = near.leaf;
    if fields::same(e.key, node::leaf::key(store, leaf)) {
        set_value(store, leaf, e.value);
        return Ok(Inserted::Replaced);
    }
    put_beside(store, e, root, near)
}

fn put_under(store: &mut [u8], e: Entry, root: Link) -> Result<Inserted, PutError>
    requires { (start e.head.capacity ≤ length store.old) × (number_in root.child < e.head.capacity) }
    ensures { Did (put_under store.old e.entry.head e.entry.key.now e.entry.value root) result store.new }
{
    let near = find_near(store, e.head.capacity, e.key, root)?;
    put_near(store, e, root, near)
}

// A key with its value goes into a store whose header is h.
pub fn insert(store: &mut [u8], h: Header, key: &[u8], value: u32) -> Result<Inserted, PutError>
    requires { (start h.capacity ≤ length store.old) × (h.capacity ≤ most) × (length key.now ≤ key_limit) }
    ensures { Did (insert_in store.old h key.now value) result store.new }
{
    let e = Entry {
        head: h,
        key,
        value,
    };
    if h.leaves == 0 {
        return hang(store, e, Spot::Root);
    }
    let root = link_of(h.root, h.capacity)?;
    put_under(store, e, root)
}

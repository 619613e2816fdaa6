// Branch records: a sparse array of links. The position of a branch stands in the link that leads to it.
// That the store has room for the record stands in the contract of each public function: these, of which docs/TRACE.md names `get_child`, `child_at`, `child_place`,
// `follow_or_head`, `set_child` and `make_branch`, take any store and number that fit, and a type with that invariant would ask more of their callers. Of a store that
// is written the fact would have to be proved again after each write.
ghost use Rattle.std.specs.Prelude.{◌≡◌, ◌≤◌, ◌<◌, length};
ghost use Rattle.model.specs.Numbers.{most};
ghost use Rattle.bitmap.specs.Entries.{nth, below, erase};
ghost use Rattle.sparse_array.specs.Array.{size as array_size};
ghost use Rattle.node.specs.Layout.{Room};
ghost use Rattle.node.specs.Child.{number_in};
ghost use Rattle.node.specs.Branch.{array_in, children_in, linked as linked_of, linked_got, linked_in, near_in, head_link, set_child, remove_child, two_slots, make_branch};

use crate::NotAStore;
use crate::child::{BranchNo, Link, item_of, link_of};
use crate::layout::{ARRAY, array_at};

// The record's array, as a part of the store.
pub fn array(store: &[u8], branch: BranchNo) -> &[u8]
    requires { Room store.now branch.0 }
    ensures { (result.now ≡ array_in store.now branch.0) × (length result.now ≡ array_size) }
{
    let a = array_at(branch);
    let e = a + ARRAY;
    &store[a..e]
}

// The link that an item stands for, if there is one.
fn linked(item: Option<u32>, capacity: u16) -> Result<Option<Link>, NotAStore>
    ensures { result ≡ linked_got capacity item }
{
    match item {
        Some(item) => Ok(Some(link_of(item, capacity)?)),
        None => Ok(None),
    }
}

// The link of a slot.
pub fn get_child(
    store: &[u8],
    branch: BranchNo,
    slot: u8,
    capacity: u16,
) -> Result<Option<Link>, NotAStore>
    requires { Room store.now branch.0 }
    ensures { result ≡ linked_in capacity slot (children_in store.now branch.0) }
{
    linked(sparse_array::get(array(store, branch), slot), capacity)
}

// The link at a place: from place 0 on these are the links of all children, in the order of their slots.
pub fn child_at(
    store: &[u8],
    branch: BranchNo,
    place: usize,
    capacity: u16,
) -> Result<Option<Link>, NotAStore>
    requires { Room store.now branch.0 }
    ensures { result ≡ linked_of capacity (nth place (children_in store.now branch.0)) }
{
    linked(sparse_array::item_at(array(store, branch), place), capacity)
}

// The place of a slot: the number of present slots below it.
pub fn child_place(store: &[u8], branch: BranchNo, slot: u8) -> usize
    requires { (Room store.now branch.0) × (slot ≤ 16) }
    ensures { (result ≡ below slot (children_in store.now branch.0)) × (result ≤ 17) }
{
    sparse_array::actual_index(array(store, branch), slot).unwrap()
}

// The link of a slot, or of the lowest present one where that one is missing.
pub fn follow_or_head(
    store: &[u8],
    branch: BranchNo,
    slot: u8,
    capacity: u16,
) -> Result<Option<Link>, NotAStore>
    requires { (Room store.now branch.0) × (slot ≤ 16) }
    ensures { result ≡ near_in capacity slot (children_in store.now branch.0) }
{
    linked(
        sparse_array::get_or_head(array(store, branch), slot),
        capacity,
    )
}

// The link of the lowest present slot.
pub fn head_child(store: &[u8], branch: BranchNo, capacity: u16) -> Result<Option<Link>, NotAStore>
    requires { Room store.now branch.0 }
    ensures { result ≡ head_link capacity (children_in store.now branch.0) }
{
    linked(sparse_array::head(array(store, branch)), capacity)
}

// The link of the lowest present slot but for one.
pub fn other_child(
    store: &[u8],
    branch: BranchNo,
    slot: u8,
    capacity: u16,
) -> Result<Option<Link>, NotAStore>
    requires { Room store.now branch.0 }
    ensures { result ≡ head_link capacity (erase slot (children_in store.now branch.0)) }
{
    linked(
        sparse_array::head_without(array(store, branch), slot),
        capacity,
    )
}

// The number of children.
pub fn child_count(store: &[u8], branch: BranchNo) -> usize
    requires { Room store.now branch.0 }
    ensures { result ≡ length (children_in store.now branch.0) }
{
    sparse_array::len(array(store, branch))
}

// A link put at a slot. A slot over 16 leaves the record as it is.
pub fn set_child(store: &mut [u8], branch: BranchNo, slot: u8, link: Link)
    requires { (Room store.old branch.0) × (number_in link.child < most) }
    ensures { store.new ≡ set_child store.old branch.0 slot link }
{
    let item = item_of(link);
    let a = array_at(branch);
    let e = a + ARRAY;
    let _ = sparse_array::set(&mut store[a..e], slot, item);
}

// A slot taken out. A missing slot leaves the record as it is.
pub fn remove_child(store: &mut [u8], branch: BranchNo, slot: u8)
    requires { Room store.old branch.0 }
    ensures { store.new ≡ remove_child store.old branch.0 slot }
{
    let a = array_at(branch);
    let e = a + ARRAY;
    let _ = sparse_array::remove(&mut store[a..e], slot);
}

// The array of two children and no other. A slot over 16 is left out.
fn make_two(s: &mut [u8], low: u8, first: u32, high: u8, second: u32)
    requires { length s.old ≡ array_size }
    ensures { s.new ≡ two_slots low first high second s.old }
{
    sparse_array::clear(s);
    let _ = sparse_array::set(s, low, first);
    let _ = sparse_array::set(s, high, second);
}

// A new branch, with two children.
pub fn make_branch(store: &mut [u8], branch: BranchNo, low: u8, first: Link, high: u8, second: Link)
    requires { (Room store.old branch.0) × ((number_in first.child < most) × (number_in second.child < most)) }
    ensures { store.new ≡ make_branch store.old branch.0 low first high second }
{
    let x = item_of(first);
    let y = item_of(second);
    let a = array_at(branch);
    let e = a + ARRAY;
    make_two(&mut store[a..e], low, x, high, y);
}

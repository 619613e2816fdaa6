// Leaf records: a length, a key and a value.
// That the store has room for the record stands in each contract: the public functions, of which docs/TRACE.md names `key`, `value` and `write_leaf`, take any store and
// number that fit, and a type with that invariant would ask more of their callers; the private one takes what `key` has. Of a store that is written the fact would have
// to be proved again after each write.
ghost use Rattle.std.specs.Prelude.{◌≡◌, ◌≤◌, leb, length};
ghost use Rattle.model.specs.Key.{key_limit};
ghost use Rattle.node.specs.Layout.{Room};
ghost use Rattle.node.specs.Leaf.{leaf_in, key_size, set_leaf, set_value};

use crate::child::LeafNo;
use crate::layout::{KEY_LIMIT, key_at, size_at, value_at};
use fields::little::{read4, write4};
use fields::write1;

// How many bytes of a leaf record are its key: no more than the limit, whatever the length byte says.
fn key_size(store: &[u8], leaf: LeafNo) -> usize
    requires { Room store.now leaf.0 }
    ensures { (result ≡ key_size (leaf_in store.now leaf.0).size) × (result ≤ key_limit) }
{
    let a = size_at(leaf);
    (store[a] as usize).min(KEY_LIMIT)
}

// Whether the length byte is that of a key.
pub fn fits(store: &[u8], leaf: LeafNo) -> bool
    requires { Room store.now leaf.0 }
    ensures { result ≡ leb (leaf_in store.now leaf.0).size key_limit }
{
    let a = size_at(leaf);
    store[a] as usize <= KEY_LIMIT
}

pub fn key(store: &[u8], leaf: LeafNo) -> &[u8]
    requires { Room store.now leaf.0 }
    ensures { (result.now ≡ (leaf_in store.now leaf.0).key) × (length result.now ≤ key_limit) }
{
    let a = key_at(leaf);
    let e = a + key_size(store, leaf);
    &store[a..e]
}

pub fn value(store: &[u8], leaf: LeafNo) -> u32
    requires { Room store.now leaf.0 }
    ensures { result ≡ (leaf_in store.now leaf.0).value }
{
    let a = value_at(leaf);
    read4(store, a)
}

// A leaf record with a key and a value. The bytes past a shorter key stay.
pub fn write_leaf(store: &mut [u8], leaf: LeafNo, key: &[u8], value: u32)
    requires { (Room store.old leaf.0) × (length key.now ≤ key_limit) }
    ensures { store.new ≡ set_leaf store.old leaf.0 key.now value }
{
    let size = key.len();
    let t = size_at(leaf);
    write1(store, t, size as u8);
    let v = value_at(leaf);
    write4(store, v, value);
    let a = key_at(leaf);
    let e = a + size;
    store[a..e].copy_from_slice(key);
}

pub fn set_value(store: &mut [u8], leaf: LeafNo, value: u32)
    requires { Room store.old leaf.0 }
    ensures { store.new ≡ set_value store.old leaf.0 value }
{
    let a = value_at(leaf);
    write4(store, a, value);
}

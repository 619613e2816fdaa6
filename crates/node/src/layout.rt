// The sizes and places of the layout. A block is KEY_LIMIT key bytes and a tail of 64 bytes: the branch record's sparse array, the leaf record's
// length and value, and 4 bytes that nothing reads or writes.
ghost use Rattle.std.specs.Prelude.{◌≡◌, ◌≤◌};
ghost use Rattle.model.specs.Numbers.{most, capacity_of};
ghost use Rattle.node.specs.Layout.{start as start_of, array_at, size_at, value_at};

use crate::child::{BranchNo, LeafNo};

pub const KEY_LIMIT: usize = 64;

pub const HEAD: usize = 128;

pub const BLOCK: usize = KEY_LIMIT + 64;

pub const MOST: usize = 16384;

// The bytes of a branch record's array.
pub const ARRAY: usize = 55;

// The length byte of a free leaf record.
pub const FREE: u8 = 255;

// Ends a chain of free records.
pub const LAST: u16 = 65535;

// The root of an empty store: the item of no link.
pub const NO_ROOT: u32 = 65535;

// The capacity of a slice of so many bytes.
pub fn capacity_of(len: usize) -> u16
    ensures { (result ≡ capacity_of len) × (result ≤ most) }
{
    if len < HEAD {
        return 0;
    }
    let n = (len - HEAD) / BLOCK;
    n.min(MOST) as u16
}

// Where block n starts.
fn start(n: u16) -> usize
    ensures { result ≡ start_of n }
{
    HEAD + BLOCK * (n as usize)
}

// Where a branch record's array stands, and a leaf record's key, length and value: each by a number of its own kind.
pub fn array_at(branch: BranchNo) -> usize
    ensures { result ≡ array_at branch.0 }
{
    start(branch.0) + KEY_LIMIT
}

pub fn key_at(leaf: LeafNo) -> usize
    ensures { result ≡ start_of leaf.0 }
{
    start(leaf.0)
}

pub fn size_at(leaf: LeafNo) -> usize
    ensures { result ≡ size_at leaf.0 }
{
    start(leaf.0) + KEY_LIMIT + ARRAY
}

pub fn value_at(leaf: LeafNo) -> usize
    ensures { result ≡ value_at leaf.0 }
{
    start(leaf.0) + KEY_LIMIT + ARRAY + 1
}

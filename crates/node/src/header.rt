// The header: a mark with the layout's version, and seven numbers. It goes in and out by value: a call reads it once, works on the numbers, and
// writes them back once. That the store is as long as a header stands in the contracts: a slice has no type for its least length.
ghost use Rattle.std.specs.Prelude.{◌≡◌, ◌≤◌, length};
ghost use Rattle.model.specs.Numbers.{header_size};
ghost use Rattle.node.specs.Header.{head_in, head_of, set_head, set_mark};

use crate::NotAStore;
use crate::layout::{BLOCK, HEAD, capacity_of};
use fields::little::{read2, read3, read4, write, write2, write4};

// The mark and the layout's version.
const MARK: u32 = 0x31505150;

#[derive(Clone, Copy)]
pub struct Header {
    pub capacity: u16,
    pub limit: u16,
    // leaves and branches in use
    pub leaves: u16,
    pub branches: u16,
    // the item of the link to the root
    pub root: u32,
    // the first free leaf and the first free branch
    pub leaf: u16,
    pub branch: u16,
}

// The numbers, right or wrong.
fn head_in(store: &[u8]) -> Header
    requires { header_size ≤ length store.now }
    ensures { result ≡ head_in store.now }
{
    let capacity = read2(store, 4);
    let limit = read2(store, 6);
    let leaves = read2(store, 8);
    let branches = read2(store, 10);
    let root = read3(store, 12);
    let leaf = read2(store, 15);
    let branch = read2(store, 17);
    Header {
        capacity,
        limit,
        leaves,
        branches,
        root,
        leaf,
        branch,
    }
}

// The header's test, on any bytes: the slice has room for a block, the mark is there, the capacity is the slice's, and no more records are in use
// than there are.
pub fn read_head(store: &[u8]) -> Result<Header, NotAStore>
    ensures { result ≡ head_of store.now }
{
    let n = store.len();
    if n < HEAD + BLOCK {
        return Err(NotAStore);
    }
    if read4(store, 0) != MARK {
        return Err(NotAStore);
    }
    let h = head_in(store);
    let capacity = h.capacity;
    if capacity != capacity_of(n) {
        return Err(NotAStore);
    }
    if capacity < h.leaves {
        return Err(NotAStore);
    }
    if capacity < h.branches {
        return Err(NotAStore);
    }
    Ok(h)
}

pub fn put_head(store: &mut [u8], h: Header)
    requires { header_size ≤ length store.old }
    ensures { store.new ≡ set_head store.old h }
{
    write2(store, 4, h.capacity);
    write2(store, 6, h.limit);
    write2(store, 8, h.leaves);
    write2(store, 10, h.branches);
    write::<3>(store, 12, h.root);
    write2(store, 15, h.leaf);
    write2(store, 17, h.branch);
}

pub fn put_mark(store: &mut [u8])
    requires { header_size ≤ length store.old }
    ensures { store.new ≡ set_mark store.old }
{
    write4(store, 0, MARK);
}

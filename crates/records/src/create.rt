// A new, empty store: a header, and every record of both kinds free, in the order of their numbers.
ghost use Rattle.std.specs.Prelude.{◌≡◌, ◌≤◌, ◌<◌, length};
ghost use Rattle.node.specs.Layout.{start};
ghost use Rattle.records.specs.Create.{next_after, freed_below, Created as WasCreated};

use crate::chain::Record;
use node::child::{BranchNo, LeafNo};
use node::header::{Header, put_head, put_mark};
use node::layout::{BLOCK, HEAD, LAST, NO_ROOT, capacity_of};

// The slice has no room for a block.
#[derive(Clone, Copy, Debug, PartialEq, Eq)]
pub struct NoRoom;

// The number after r in a chain of all records.
fn next_after(r: u16, capacity: u16) -> u16
    requires { r < capacity }
    ensures { result ≡ next_after capacity r }
{
    let n = r + 1;
    if n < capacity {
        return n;
    }
    LAST
}

// Every record of both kinds becomes free.
fn free_all(store: &mut [u8], capacity: u16)
    requires { start capacity ≤ length store.old }
    ensures { store.new ≡ freed_below capacity capacity store.old }
{
    for r in 0..capacity {
        let next = next_after(r, capacity);
        LeafNo(r).free(store, next);
        BranchNo(r).free(store, next);
    }
}

pub fn create(store: &mut [u8], limit: u16) -> Result<(), NoRoom>
    ensures { WasCreated limit store.old store.new result }
{
    let n = store.len();
    if n < HEAD + BLOCK {
        return Err(NoRoom);
    }
    let capacity = capacity_of(n);
    free_all(store, capacity);
    put_mark(store);
    let head = Header {
        capacity,
        limit,
        leaves: 0,
        branches: 0,
        root: NO_ROOT,
        leaf: 0,
        branch: 0,
    };
    put_head(store, head);
    Ok(())
}

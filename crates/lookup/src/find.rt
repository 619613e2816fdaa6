// Exact lookup: one descent, and the leaf's key compared.
// That the capacity fits the store stands in each contract: `find_exact_leaf` and `find_leaf`, which docs/TRACE.md names, take any store and number that fit,
// and a type with that invariant would ask more of their callers. No struct of both for the private ones:
// each `ensures` would name its two fields, and each call of `node`, which takes a store and a number, would take it apart. `number_in
// .. < capacity` stands beside it: a link's number is tested against a capacity that is no part of the link.
ghost use Rattle.std.specs.Prelude.{◌≡◌, ◌≤◌, ◌<◌, length};
ghost use Rattle.node.specs.Layout.{start};
ghost use Rattle.node.specs.Child.{number_in, to_branch};
ghost use Rattle.trie_spec.specs.Walk.{steps};
ghost use Rattle.trie_spec.specs.Find.{matched, find_from, find_in, Stands, found_at, ends, Below};

use crate::descent::{STEPS, descend};
use crate::keys::nibble;
use node::NotAStore;
use node::branch::get_child;
use node::child::{BranchNo, Child, LeafNo, Link, link_of};
use node::header::Header;
use trie_spec::descent::{Step, Walked};

// Past every position. No Option: `walk` in the specs takes a stop position, and one past every position stops at none.
const NO_STOP: usize = 256;

// A leaf that a descent met, if its key is the one looked for.
fn matching(
    store: &[u8],
    capacity: u16,
    key: &[u8],
    met: Child,
    step: Step,
) -> Result<Option<(LeafNo, Step)>, NotAStore>
    requires { (start capacity ≤ length store.now) × (number_in met < capacity) }
    ensures { result ≡ matched store.now key.now met step }
{
    let Child::Leaf(n) = met else {
        return Err(NotAStore);
    };
    if !fields::same(key, node::leaf::key(store, n)) {
        return Ok(None);
    }
    Ok(Some((n, step)))
}

fn find_from(
    store: &[u8],
    capacity: u16,
    key: &[u8],
    root: Link,
) -> Result<Option<(LeafNo, Step)>, NotAStore>
    requires { (start capacity ≤ length store.now) × (number_in root.child < capacity) }
    ensures is { result ≡ find_from store.now capacity key.now root }
    ensures stands { Stands capacity result }
{
    match descend(store, capacity, key, root, NO_STOP)? {
        Walked::At(met, step) => matching(store, capacity, key, met, step),
        Walked::Missing(_b, _s) => Ok(None),
    }
}

// The leaf of a key in a store whose header is h, and the last step of the descent to it.
pub fn find_exact_leaf(
    store: &[u8],
    h: Header,
    key: &[u8],
) -> Result<Option<(LeafNo, Step)>, NotAStore>
    requires { start h.capacity ≤ length store.now }
    ensures is { result ≡ find_in store.now h key.now }
    ensures stands { Stands h.capacity result }
{
    if h.leaves == 0 {
        return Ok(None);
    }
    let root = link_of(h.root, h.capacity)?;
    find_from(store, h.capacity, key, root)
}

// The leaf at the end of the way down from a branch, whatever its key is.
// Document 01 names the loop's form: it yields by `break` what it meets, with the step count as falling number.
fn seek_below(
    store: &[u8],
    capacity: u16,
    key: &[u8],
    branch: BranchNo,
    place: u8,
) -> Result<Option<LeafNo>, NotAStore>
    requires { (start capacity ≤ length store.now) × (branch.0 < capacity) }
    ensures is { result ≡ ends store.now capacity key.now steps (to_branch branch.0 place) }
    ensures below { Below capacity result }
{
    let mut here = branch;
    let mut position = place;
    let mut left: usize = STEPS;
    loop {
        if left == 0 {
            break Err(NotAStore);
        }
        let slot = nibble(key, position as usize);
        match get_child(store, here, slot, capacity)? {
            Some(
                Link {
                    child: Child::Leaf(n),
                    position: _,
                },
            ) => {
                if left == 1 {
                    break Err(NotAStore);
                }
                break Ok(Some(n));
            }
            Some(
                Link {
                    child: Child::Branch(b),
                    position: p,
                },
            ) => {
                here = b;
                position = p;
                left -= 1;
            }
            None => break Ok(None),
        }
    }
}

fn seek(store: &[u8], capacity: u16, key: &[u8], root: Link) -> Result<Option<LeafNo>, NotAStore>
    requires { (start capacity ≤ length store.now) × (number_in root.child < capacity) }
    ensures is { result ≡ ends store.now capacity key.now steps root }
    ensures below { Below capacity result }
{
    match root.child {
        Child::Leaf(n) => Ok(Some(n)),
        Child::Branch(b) => seek_below(store, capacity, key, b, root.position),
    }
}

// The leaf of a key, without the way to it: what a lookup needs that changes no link. Three numbers of the header go in, since numbers stay in registers.
pub fn find_leaf(
    store: &[u8],
    capacity: u16,
    leaves: u16,
    root: u32,
    key: &[u8],
) -> Result<Option<LeafNo>, NotAStore>
    requires { start capacity ≤ length store.now }
    ensures is { result ≡ found_at store.now capacity leaves root key.now }
    ensures below { Below capacity result }
{
    if leaves == 0 {
        return Ok(None);
    }
    let top = link_of(root, capacity)?;
    let Some(n) = seek(store, capacity, key, top)? else {
        return Ok(None);
    };
    if fields::same(key, node::leaf::key(store, n)) {
        return Ok(Some(n));
    }
    Ok(None)
}

// The descents. A descent ends at a leaf, at a branch from a stop position on, at a missing slot or at the last step: past the last position it is the
// exact descent, and past the critical position it finds the place of an insertion. The closest descent goes to the lowest slot where one is missing.
// That the capacity fits the store stands in each contract: `descend`, `find_closest_leaf` and `find_near`, which docs/TRACE.md names, take any store and
// number that fit, and a type with that invariant would ask more of their callers. No struct of both for the private ones:
// each `ensures` would name its two fields, and each call of `node`, which takes a store and a number, would take it apart. `number_in
// .. < capacity` stands beside it: a link's number is tested against a capacity that is no part of the link.
ghost use Rattle.std.specs.Prelude.{◌≡◌, ◌≤◌, ◌<◌, ◌-◌, length};
ghost use Rattle.node.specs.Layout.{start};
ghost use Rattle.node.specs.Child.{number_in, to_branch};
ghost use Rattle.trie_spec.specs.Walk.{steps, walk, near, first, way, closest_of, Ended, Lands, OnWay, Nearby, Sound};

use crate::keys::nibble;
use node::NotAStore;
use node::branch::{follow_or_head, get_child};
use node::child::{BranchNo, Child, Link};
use node::layout::KEY_LIMIT;
pub use trie_spec::descent::{Closest, Near, Spot, Step, Walked, Way};

// A path of a picture has a branch for each position at most, and ends at a leaf.
pub const DEPTH: usize = 2 * KEY_LIMIT;

pub const STEPS: usize = DEPTH + 1;

// The loops go from a branch on, and keep it and its position apart: each is a number that stays in a register, where a link would be packed and unpacked.
// Document 01 names their form: a loop that yields by `break` what it meets, with the step count as falling number. The leaf below a branch that is met with
// one step left lies deeper than a picture's.
fn descend_below(
    store: &[u8],
    capacity: u16,
    key: &[u8],
    branch: BranchNo,
    place: u8,
    stop: usize,
) -> Result<Walked, NotAStore>
    requires { (start capacity ≤ length store.now) × (branch.0 < capacity) }
    ensures is { result ≡ walk store.now capacity key.now stop steps (first (to_branch branch.0 place)) }
    ensures lies { Lands capacity result }
{
    let mut here = branch;
    let mut position = place;
    let mut at = Spot::Root;
    let mut above = Spot::Root;
    let mut left: usize = STEPS;
    loop {
        if left == 0 {
            break Err(NotAStore);
        }
        let p = position as usize;
        if stop <= p {
            let child = Child::Branch(here);
            break Ok(Walked::At(
                child,
                Step {
                    child,
                    position,
                    at,
                    above,
                },
            ));
        }
        let slot = nibble(key, p);
        match get_child(store, here, slot, capacity)? {
            Some(
                Link {
                    child: Child::Leaf(n),
                    position: met,
                },
            ) => {
                if left == 1 {
                    break Err(NotAStore);
                }
                let child = Child::Leaf(n);
                break Ok(Walked::At(
                    child,
                    Step {
                        child,
                        position: met,
                        at: Spot::Under(here, slot),
                        above: at,
                    },
                ));
            }
            Some(
                Link {
                    child: Child::Branch(b),
                    position: met,
                },
            ) => {
                position = met;
                above = at;
                at = Spot::Under(here, slot);
                here = b;
                left -= 1;
            }
            None => break Ok(Walked::Missing(here, slot)),
        }
    }
}

pub fn descend(
    store: &[u8],
    capacity: u16,
    key: &[u8],
    root: Link,
    stop: usize,
) -> Result<Walked, NotAStore>
    requires { (start capacity ≤ length store.now) × (number_in root.child < capacity) }
    ensures is { result ≡ walk store.now capacity key.now stop steps (first root) }
    ensures lies { Lands capacity result }
{
    match root.child {
        Child::Leaf(_n) => {
            Ok(Walked::At(
                root.child,
                Step {
                    child: root.child,
                    position: root.position,
                    at: Spot::Root,
                    above: Spot::Root,
                },
            ))
        }
        Child::Branch(b) => descend_below(store, capacity, key, b, root.position, stop),
    }
}

// From a branch with so many above it.
// The loop's form: see `descend_below`.
fn closest_from(
    store: &[u8],
    capacity: u16,
    key: &[u8],
    branch: BranchNo,
    place: u8,
    above: usize,
) -> Result<Closest, NotAStore>
    requires { (start capacity ≤ length store.now) × (branch.0 < capacity) × (above < steps) }
    ensures is { result ≡ near store.now capacity key.now (steps - above) above (to_branch branch.0 place) }
    ensures sound { Sound capacity result }
{
    let mut here = branch;
    let mut position = place;
    let mut left: usize = STEPS - above;
    loop {
        if left == 0 {
            break Err(NotAStore);
        }
        let slot = nibble(key, position as usize);
        match follow_or_head(store, here, slot, capacity)? {
            Some(
                Link {
                    child: Child::Leaf(leaf),
                    position: _,
                },
            ) => {
                if left == 1 {
                    break Err(NotAStore);
                }
                break Ok(Closest {
                    leaf,
                    depth: STEPS - left + 1,
                });
            }
            Some(
                Link {
                    child: Child::Branch(b),
                    position: p,
                },
            ) => {
                here = b;
                position = p;
                left -= 1;
            }
            None => break Err(NotAStore),
        }
    }
}

pub fn find_closest_leaf(
    store: &[u8],
    capacity: u16,
    key: &[u8],
    root: Link,
) -> Result<Closest, NotAStore>
    requires { (start capacity ≤ length store.now) × (number_in root.child < capacity) }
    ensures is { result ≡ near store.now capacity key.now steps 0 root }
    ensures sound { Sound capacity result }
{
    match root.child {
        Child::Leaf(leaf) => Ok(Closest { leaf, depth: 0 }),
        Child::Branch(b) => closest_from(store, capacity, key, b, root.position, 0),
    }
}

// The way down by the key's nibbles, as far as it goes, with the highest position on it: every descent to a position past that one ends where it does.
// The loop's form: see `descend_below`.
fn way_below(
    store: &[u8],
    capacity: u16,
    key: &[u8],
    branch: BranchNo,
    place: u8,
) -> Result<Way, NotAStore>
    requires { (start capacity ≤ length store.now) × (branch.0 < capacity) }
    ensures is { result ≡ way store.now capacity key.now steps 0 0 (first (to_branch branch.0 place)) }
    ensures on { OnWay capacity result }
{
    let mut here = branch;
    let mut position = place;
    let mut high: u8 = 0;
    let mut at = Spot::Root;
    let mut left: usize = STEPS;
    loop {
        if left == 0 {
            break Err(NotAStore);
        }
        let top = high.max(position);
        let slot = nibble(key, position as usize);
        match get_child(store, here, slot, capacity)? {
            Some(
                Link {
                    child: Child::Leaf(n),
                    position: met,
                },
            ) => {
                if left == 1 {
                    break Err(NotAStore);
                }
                let child = Child::Leaf(n);
                break Ok(Way::Leaf(
                    n,
                    STEPS - left + 1,
                    Step {
                        child,
                        position: met,
                        at: Spot::Under(here, slot),
                        above: at,
                    },
                    top,
                ));
            }
            Some(
                Link {
                    child: Child::Branch(b),
                    position: met,
                },
            ) => {
                position = met;
                at = Spot::Under(here, slot);
                here = b;
                high = top;
                left -= 1;
            }
            None => break Ok(Way::Off(here, slot, position, STEPS - left, top)),
        }
    }
}

fn find_way(store: &[u8], capacity: u16, key: &[u8], root: Link) -> Result<Way, NotAStore>
    requires { (start capacity ≤ length store.now) × (number_in root.child < capacity) }
    ensures is { result ≡ way store.now capacity key.now steps 0 0 (first root) }
    ensures on { OnWay capacity result }
{
    match root.child {
        Child::Leaf(n) => {
            Ok(Way::Leaf(
                n,
                0,
                Step {
                    child: root.child,
                    position: root.position,
                    at: Spot::Root,
                    above: Spot::Root,
                },
                0,
            ))
        }
        Child::Branch(b) => way_below(store, capacity, key, b, root.position),
    }
}

// The closest leaf, and where the way down by the key's nibbles ends: most insertions need no second descent, for this one tells where the new leaf goes.
pub fn find_near(store: &[u8], capacity: u16, key: &[u8], root: Link) -> Result<Near, NotAStore>
    requires { (start capacity ≤ length store.now) × (number_in root.child < capacity) }
    ensures is { closest_of result ≡ near store.now capacity key.now steps 0 root }
    ensures ended { Ended store.now capacity key.now root result }
    ensures nearby { Nearby capacity result }
{
    match find_way(store, capacity, key, root)? {
        Way::Leaf(leaf, depth, step, high) => {
            let child = Child::Leaf(leaf);
            Ok(Near {
                leaf,
                depth,
                end: Walked::At(child, step),
                high,
            })
        }
        Way::Off(b, s, p, depth, high) => {
            let closest = closest_from(store, capacity, key, b, p, depth)?;
            Ok(Near {
                leaf: closest.leaf,
                depth: closest.depth,
                end: Walked::Missing(b, s),
                high,
            })
        }
    }
}

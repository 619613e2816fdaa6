// The walk over the tree of records. A branch compares the first leaf of each child with the first leaf of all: the other leaves of a child agree with its
// first one past the branch's position, by the child's own check. No mark is kept of the records met: in a picture none is reached twice.
// That the capacity fits the store stands in each contract: `tree_right`, which docs/TRACE.md names, takes any store and number that fit, and a type with that
// invariant would ask more of its callers. No struct of both for the private ones:
// each `ensures` would name its two fields, and each call of `node`, which takes a store and a number, would take it apart.
// A budget is a count of leaves, which a slice of bytes has no type for: that it is below 65,536 comes from the header's number in `tree_right`.
ghost use Rattle.std.specs.Prelude.{◌≡◌, ◌-◌, ◌≤◌, ◌<◌, length};
ghost use Rattle.node.specs.Layout.{start};
ghost use Rattle.node.specs.Child.{number_in};
ghost use Rattle.audit_tree.specs.Walk.{leaf_seen, stands, add_kid, finish as finished, seen, tree_right, Modest, FirstIn, Sound, Grown};

use lookup::descent::STEPS;
use lookup::keys::{critical, nibble};
use node::branch::get_child;
use node::child::{Child, LeafNo, Link, link_of};
use node::layout::NO_ROOT;
use node::leaf::{fits, key};

// The slots of a branch.
const SLOTS: u8 = 17;

// What the check of a node met where a picture is there: the first leaf below it, and how many leaves and branches. Without a picture nothing is seen.
#[derive(Clone, Copy)]
pub struct Seen {
    pub first: LeafNo,
    pub leaves: usize,
    pub branches: usize,
}

// What was met of a branch's children so far: how many, and of all of them the first leaf and how many leaves and branches.
#[derive(Clone, Copy)]
pub struct Tally {
    pub kids: usize,
    pub first: Option<LeafNo>,
    pub leaves: usize,
    pub branches: usize,
}

// A leaf: its link has no position, its key fits, and one leaf more may be met.
#[tactic(auto, unfolding(crate::specs::Walk::leaf_seen))]
fn check_leaf(
    store: &[u8],
    capacity: u16,
    n: LeafNo,
    position: usize,
    budget: usize,
) -> Option<Seen>
    requires { (start capacity ≤ length store.now) × (n.0 < capacity) }
    ensures is { result ≡ leaf_seen store.now n position budget }
    ensures modest { Modest capacity budget result }
{
    if position == 0 && budget != 0 && fits(store, n) {
        Some(Seen {
            first: n,
            leaves: 1,
            branches: 0,
        })
    } else {
        None
    }
}

// Whether a child whose first leaf is n stands right in a slot of a branch at position p: n has that slot as its nibble there, and the first of all leaves and
// n first differ there.
#[tactic(auto, unfolding(crate::specs::Walk::stands))]
fn child_stands(store: &[u8], capacity: u16, t: Tally, n: LeafNo, p: usize, slot: u8) -> bool
    requires { (start capacity ≤ length store.now) × (n.0 < capacity) × (FirstIn capacity t.first) }
    ensures { result ≡ stands store.now p slot t n }
{
    nibble(key(store, n), p) == slot
        && match t.first {
            Some(first) => critical(key(store, first), key(store, n)) == p,
            None => true,
        }
}

// A child in a slot of a branch at position p is taken into the tally.
#[tactic(auto, unfolding(crate::specs::Walk::add_kid))]
fn add_kid(
    store: &[u8],
    capacity: u16,
    t: Tally,
    kid: Seen,
    p: usize,
    slot: u8,
    budget: usize,
) -> Option<Tally>
    requires { (start capacity ≤ length store.now) × (budget < 65536) × (Sound capacity budget t) × (Modest capacity (budget - t.leaves) (Some kid)) }
    ensures is { result ≡ add_kid store.now p slot t (Some kid) }
    ensures grown { Grown capacity budget result }
{
    if !child_stands(store, capacity, t, kid.first, p, slot) {
        return None;
    }
    Some(Tally {
        kids: t.kids + 1,
        first: Some(t.first.unwrap_or(kid.first)),
        leaves: t.leaves + kid.leaves,
        branches: t.branches + kid.branches,
    })
}

// A branch has two children or more.
#[tactic(auto, unfolding(crate::specs::Walk::finish))]
fn finish(t: Tally, capacity: u16, budget: usize) -> Option<Seen>
    requires { (budget < 65536) × (Sound capacity budget t) }
    ensures is { result ≡ finished t }
    ensures modest { Modest capacity budget result }
{
    let first = t.first?;
    if t.kids < 2 {
        return None;
    }
    Some(Seen {
        first,
        leaves: t.leaves,
        branches: t.branches + 1,
    })
}

// What lies below a link: branches at positions from `low` on, at most `left` of them on a path, and at most `budget` leaves.
fn check_node(
    store: &[u8],
    capacity: u16,
    link: Link,
    low: usize,
    left: usize,
    budget: usize,
) -> Option<Seen>
    requires { (start capacity ≤ length store.now) × (number_in link.child < capacity) × (budget < 65536) }
    ensures is { result ≡ seen store.now capacity left low budget link }
    ensures modest { Modest capacity budget result }
{
    let p = link.position as usize;
    match link.child {
        Child::Leaf(n) => check_leaf(store, capacity, n, p, budget),
        Child::Branch(b) => {
            if left == 0 || p < low {
                return None;
            }
            let mut t = Tally {
                kids: 0,
                first: None,
                leaves: 0,
                branches: 0,
            };
            for slot in 0..SLOTS {
                let Ok(met) = get_child(store, b, slot, capacity) else {
                    return None;
                };
                if let Some(next) = met {
                    let kid = check_node(
                        store,
                        capacity,
                        next,
                        p + 1,
                        left - 1,
                        budget - t.leaves,
                    )?;
                    t = add_kid(store, capacity, t, kid, p, slot, budget)?;
                }
            }
            finish(t, capacity, budget)
        }
    }
}

// Nothing is stored and the root is that of no tree, or the root's tree is right and has as many leaves and branches as the header counts.
#[tactic(auto, unfolding(crate::specs::Walk::tree_right, crate::specs::Walk::counts_right))]
pub fn tree_right(store: &[u8], capacity: u16, leaves: u16, branches: u16, root: u32) -> bool
    requires { start capacity ≤ length store.now }
    ensures { result ≡ tree_right store.now capacity leaves branches root }
{
    if leaves == 0 {
        return root == NO_ROOT && branches == 0;
    }
    let Ok(link) = link_of(root, capacity) else {
        return false;
    };
    let Some(met) = check_node(store, capacity, link, 0, STEPS, leaves as usize) else {
        return false;
    };
    met.leaves == leaves as usize && met.branches == branches as usize
}

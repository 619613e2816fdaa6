// The well-formedness check of document 01, "A store that the check accepts": the header, the tree from the root on, and both chains of free records.
//
// Its cost is bounded by a small multiple of the records, whatever the bytes. The walk stops at the first thing that is wrong, and at the first leaf past as
// many as the header counts: each node is told how many leaves may still be met, so that records that are shared cannot be walked again and again. A branch
// that the walk has left has two children or more, so there are fewer of these than leaves met; those that it has not left stand on one path, of at most
// STEPS. A branch costs its 17 slots and a comparison of two keys for each child. A chain is followed for as many steps as records are not in use.
#![tactic(auto)]

pub mod free;

ghost use Rattle.std.specs.Prelude.{◌≡◌, ◌≤◌, length, Ok};
ghost use Rattle.std.proofs.Math.Option.{Option};
ghost use Rattle.model.specs.Picture.{Tree};
ghost use Rattle.node.specs.Layout.{start};
ghost use Rattle.trie_spec.specs.Accepted.{Accepted};
ghost use Rattle.audit_tree.specs.Accepts.{records_right, accepts_in};

use crate::free::chain_free;
use audit_tree::tree::tree_right;
use node::NotAStore;
use node::child::{BranchNo, LeafNo};
use node::header::{Header, read_head};

// The tree and the chains, in a store whose header is h.
#[tactic(auto, unfolding(audit_tree::specs::Accepts::records_right))]
fn records_right(store: &[u8], h: Header) -> bool
    requires { start h.capacity ≤ length store.now }
    ensures { result ≡ records_right store.now h }
{
    tree_right(store, h.capacity, h.leaves, h.branches, h.root)
        && chain_free::<LeafNo>(store, h)
        && chain_free::<BranchNo>(store, h)
}

// Whether the store is accepted, by its bytes: the definition is a Bool, of which no is the refusal.
#[tactic(auto, using(audit_tree::proofs::Contracts::head_bad, audit_tree::proofs::Contracts::head_room, audit_tree::proofs::Contracts::head_good))]
fn accepts(store: &[u8]) -> bool
    ensures { result ≡ accepts_in store.now }
{
    let Ok(h) = read_head(store) else {
        return false;
    };
    records_right(store, h)
}

// "The check answers done exactly for these and STORE for all others".
#[tactic(auto, using(crate::proofs::Theorem::accepts_accepted))]
pub fn check(store: &[u8]) -> Result<(), NotAStore>
    ensures sound { result ≡ Ok tt → (o : Option Tree) × Accepted store.now o }
    ensures complete { (o : Option Tree) → Accepted store.now o → result ≡ Ok tt }
{
    if accepts(store) {
        Ok(())
    } else {
        Err(NotAStore)
    }
}

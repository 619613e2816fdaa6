// Removal of a leaf that a descent met. "Remove takes the leaf out; a branch left with one child is replaced by that child."
// That the capacity fits the store stands in each contract: `remove`, which docs/TRACE.md names, takes any store and number that fit, and a type with that invariant
// would ask more of its callers; the private function takes what it has. Of a store that is written the fact would have to be proved again after each write.
ghost use Rattle.std.specs.Prelude.{◌≤◌, ◌<◌, length};
ghost use Rattle.model.specs.Numbers.{most};
ghost use Rattle.node.specs.Layout.{start};
ghost use Rattle.trie_spec.specs.Walk.{Within};
ghost use Rattle.trie_spec.specs.Writes.{Did, remove_under, lift_under};

use node::NotAStore;
use node::branch::{child_count, other_child, remove_child};
use node::child::{BranchNo, LeafNo};
use node::header::{Header, put_head};
use node::layout::NO_ROOT;
use records::chain::give;
use trie::relink::{relink, with_root};
use trie_spec::descent::Spot;

// The leaf and its branch of two children go, and the other child takes the branch's place.
fn lift(
    store: &mut [u8],
    h: Header,
    leaf: LeafNo,
    branch: BranchNo,
    slot: u8,
    above: Spot,
) -> Result<(), NotAStore>
    requires { (start h.capacity ≤ length store.old) × (h.capacity ≤ most) × (leaf.0 < h.capacity) × (branch.0 < h.capacity) × (Within h.capacity above) }
    ensures { Did (lift_under store.old h leaf.0 branch.0 slot above) result store.new }
{
    let Some(link) = other_child(store, branch, slot, h.capacity)? else {
        return Err(NotAStore);
    };
    let one = give(store, h, leaf);
    let two = give(store, one, branch);
    relink(store, two, above, link);
    Ok(())
}

// The leaf at a spot is taken out, unless the store holds no tree.
pub fn remove(
    store: &mut [u8],
    h: Header,
    leaf: LeafNo,
    at: Spot,
    above: Spot,
) -> Result<(), NotAStore>
    requires { (start h.capacity ≤ length store.old) × (h.capacity ≤ most) × (leaf.0 < h.capacity) × (Within h.capacity at) × (Within h.capacity above) }
    ensures { Did (remove_under store.old h leaf.0 at above) result store.new }
{
    match at {
        Spot::Root => {
            let after = give(store, h, leaf);
            put_head(store, with_root(after, NO_ROOT));
            Ok(())
        }
        Spot::Under(b, s) => {
            if child_count(store, b) == 2 {
                return lift(store, h, leaf, b, s, above);
            }
            let after = give(store, h, leaf);
            remove_child(store, b, s);
            put_head(store, after);
            Ok(())
        }
    }
}

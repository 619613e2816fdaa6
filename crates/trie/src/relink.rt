// A link written where one stands, with the header: what every insertion and many removals end in.
ghost use Rattle.std.specs.Prelude.{◌≡◌, ◌≤◌, ◌<◌, length};
ghost use Rattle.model.specs.Numbers.{most};
ghost use Rattle.node.specs.Layout.{start};
ghost use Rattle.node.specs.Child.{number_in};
ghost use Rattle.trie_spec.specs.Walk.{Within};
ghost use Rattle.trie_spec.specs.Writes.{with_root, relinked};

use node::branch::set_child;
use node::child::{Link, item_of};
use node::header::{Header, put_head};
use trie_spec::descent::Spot;

// The header with another root.
pub fn with_root(h: Header, root: u32) -> Header
    ensures { result ≡ with_root h root }
{
    Header { root, ..h }
}

// The link goes to the spot, and the header to its place.
pub fn relink(store: &mut [u8], h: Header, spot: Spot, link: Link)
    requires { (start h.capacity ≤ length store.old) × (Within h.capacity spot) × (number_in link.child < most) }
    ensures { store.new ≡ relinked store.old h spot link }
{
    match spot {
        Spot::Root => {
            let item = item_of(link);
            put_head(store, with_root(h, item));
        }
        Spot::Under(b, s) => {
            set_child(store, b, s, link);
            put_head(store, h);
        }
    }
}

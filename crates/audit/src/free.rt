// The chain of the free records of a kind: from the header's first one on, for as many steps as records are not in use, each a free record of the store, and
// then the end mark. A chain that ends after so many steps meets no record twice, so no mark is kept of those met.
ghost use Rattle.std.specs.Prelude.{◌≡◌, ◌≤◌, length};
ghost use Rattle.node.specs.Layout.{start};
ghost use Rattle.audit_tree.specs.Accepts.{kept_right};

use node::header::Header;
use node::layout::LAST;
use records::chain::Record;

#[tactic(auto, using(audit_tree::proofs::Contracts::chain_out, audit_tree::proofs::Contracts::chain_end))]
pub fn chain_free<R: Record>(store: &[u8], h: Header) -> bool
    requires { start h.capacity ≤ length store.now }
    ensures { result ≡ kept_right R.kind store.now h }
{
    let (mut at, used) = R::head(h);
    for _ in used..h.capacity {
        if h.capacity <= at {
            return false;
        }
        let record = R::numbered(at);
        if !record.is_free(store) {
            return false;
        }
        at = record.next(store);
    }
    at == LAST
}

// A stored key is taken out.
// That the store has its header's blocks stands in the contract of the inner function: the store and its header are two values, and a type that holds both
// would have to be proved anew after each write.
ghost use Rattle.std.specs.Prelude.{◌≤◌, length};
ghost use Rattle.model.specs.Numbers.{most};
ghost use Rattle.node.specs.Layout.{start};
ghost use Rattle.trie_spec.specs.Writes.{Did};
ghost use Rattle.promises.specs.Promises.{Remove};
ghost use Rattle.index_spec.specs.Layout.{layout};
ghost use Rattle.index_spec.specs.Replies.{changed_reply};
ghost use Rattle.index_spec.specs.Calls.{removed_in, remove_call};

pub use index_spec::stored::LookupError;
use lookup::find::find_exact_leaf;
use node::header::{Header, read_head};
use node::layout::KEY_LIMIT;

fn remove_in(store: &mut [u8], h: Header, key: &[u8]) -> Result<(), LookupError>
    requires { (start h.capacity ≤ length store.old) × (h.capacity ≤ most) }
    ensures { Did (removed_in store.old h key.now) result store.new }
{
    let Some((n, step)) = find_exact_leaf(store, h, key)? else {
        return Err(LookupError::Absent);
    };
    removal::remove::remove(store, h, n, step.at, step.above)?;
    Ok(())
}

pub fn remove(store: &mut [u8], key: &[u8]) -> Result<(), LookupError>
    ensures promise { Remove layout key.now store.old store.new (changed_reply result) }
    ensures is { Did (remove_call key.now store.old) result store.new }
{
    let h = read_head(store)?;
    if key.len() > KEY_LIMIT {
        return Err(LookupError::Key);
    }
    remove_in(store, h, key)
}

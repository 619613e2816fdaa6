// A stored key gets another value.
// That the store has its header's blocks stands in the contract of the inner function: the store and its header are two values, and a type that holds both
// would have to be proved anew after each write.
ghost use Rattle.std.specs.Prelude.{◌≤◌, length};
ghost use Rattle.node.specs.Layout.{start};
ghost use Rattle.trie_spec.specs.Writes.{Did};
ghost use Rattle.promises.specs.Promises.{Overwrite};
ghost use Rattle.index_spec.specs.Layout.{layout};
ghost use Rattle.index_spec.specs.Replies.{changed_reply};
ghost use Rattle.index_spec.specs.Calls.{overwritten_in, overwrite_call};

pub use index_spec::stored::LookupError;
use lookup::find::find_leaf;
use node::header::{Header, read_head};
use node::layout::KEY_LIMIT;

fn overwrite_in(store: &mut [u8], h: Header, key: &[u8], value: u32) -> Result<(), LookupError>
    requires { start h.capacity ≤ length store.old }
    ensures { Did (overwritten_in store.old h key.now value) result store.new }
{
    let Some(n) = find_leaf(store, h.capacity, h.leaves, h.root, key)? else {
        return Err(LookupError::Absent);
    };
    node::leaf::set_value(store, n, value);
    Ok(())
}

pub fn overwrite(store: &mut [u8], key: &[u8], value: u32) -> Result<(), LookupError>
    ensures promise { Overwrite layout key.now value store.old store.new (changed_reply result) }
    ensures is { Did (overwrite_call key.now value store.old) result store.new }
{
    let h = read_head(store)?;
    if key.len() > KEY_LIMIT {
        return Err(LookupError::Key);
    }
    overwrite_in(store, h, key, value)
}

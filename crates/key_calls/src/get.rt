// The value of a stored key.
// That the store has its header's blocks stands in the contract of the inner function, as for the calls that write: the store and its header are two values.
ghost use Rattle.std.specs.Prelude.{◌≡◌, ◌≤◌, length};
ghost use Rattle.node.specs.Layout.{start};
ghost use Rattle.promises.specs.Promises.{Get};
ghost use Rattle.index_spec.specs.Layout.{layout};
ghost use Rattle.index_spec.specs.Replies.{get_reply};
ghost use Rattle.index_spec.specs.Calls.{got_in, get_call};

pub use index_spec::stored::LookupError;
use lookup::find::find_leaf;
use node::header::{Header, read_head};
use node::layout::KEY_LIMIT;

fn get_in(store: &[u8], h: Header, key: &[u8]) -> Result<u32, LookupError>
    requires { start h.capacity ≤ length store.now }
    ensures { result ≡ got_in store.now h key.now }
{
    let Some(n) = find_leaf(store, h.capacity, h.leaves, h.root, key)? else {
        return Err(LookupError::Absent);
    };
    Ok(node::leaf::value(store, n))
}

pub fn get(store: &[u8], key: &[u8]) -> Result<u32, LookupError>
    ensures promise { Get layout key.now store.now (get_reply result) }
    ensures is { result ≡ get_call key.now store.now }
{
    let h = read_head(store)?;
    if key.len() > KEY_LIMIT {
        return Err(LookupError::Key);
    }
    get_in(store, h, key)
}

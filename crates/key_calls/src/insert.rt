// A key goes in with its value; a stored key gets the new value.
ghost use Rattle.trie_spec.specs.Writes.{Did};
ghost use Rattle.promises.specs.Promises.{Insert};
ghost use Rattle.index_spec.specs.Layout.{layout};
ghost use Rattle.index_spec.specs.Replies.{insert_reply};
ghost use Rattle.index_spec.specs.Calls.{insert_call};

pub use index_spec::insert::InsertError;
use node::header::read_head;
use node::layout::KEY_LIMIT;
pub use trie_spec::insert::Inserted;

pub fn insert(store: &mut [u8], key: &[u8], value: u32) -> Result<Inserted, InsertError>
    ensures promise { Insert layout key.now value store.old store.new (insert_reply result) }
    ensures is { Did (insert_call key.now value store.old) result store.new }
{
    let h = read_head(store)?;
    if key.len() > KEY_LIMIT {
        return Err(InsertError::Key);
    }
    Ok(trie::insert::insert(store, h, key, value)?)
}

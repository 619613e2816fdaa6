// A new, empty store in the bytes that the caller lends.
ghost use Rattle.trie_spec.specs.Writes.{Did};
ghost use Rattle.promises.specs.Promises.{Create};
ghost use Rattle.index_spec.specs.Layout.{layout};
ghost use Rattle.index_spec.specs.Replies.{create_reply};
ghost use Rattle.index_spec.specs.Calls.{create_call};

use records::create::NoRoom;

pub fn create(store: &mut [u8], limit: u16) -> Result<(), NoRoom>
    ensures promise { Create layout limit store.old store.new (create_reply result) }
    ensures is { Did (create_call limit store.old) result store.new }
{
    records::create::create(store, limit)
}

// Another height limit: the header is written with it.
ghost use Rattle.trie_spec.specs.Writes.{Did};
ghost use Rattle.promises.specs.Promises.{SetLimit};
ghost use Rattle.index_spec.specs.Layout.{layout};
ghost use Rattle.index_spec.specs.Replies.{limit_reply};
ghost use Rattle.index_spec.specs.Calls.{limit_call};

pub use node::NotAStore;
use node::header::{Header, put_head, read_head};

pub fn set_limit(store: &mut [u8], limit: u16) -> Result<(), NotAStore>
    ensures promise { SetLimit layout limit store.old store.new (limit_reply result) }
    ensures is { Did (limit_call limit store.old) result store.new }
{
    let h = read_head(store)?;
    put_head(store, Header { limit, ..h });
    Ok(())
}

// Whether a store has no key: by the header's count of leaves.
ghost use Rattle.std.specs.Prelude.{◌≡◌};
ghost use Rattle.promises.specs.Promises.{IsEmpty};
ghost use Rattle.index_spec.specs.Layout.{layout};
ghost use Rattle.index_spec.specs.Replies.{empty_reply};
ghost use Rattle.index_spec.specs.Calls.{empty_call};

pub use node::NotAStore;
use node::header::read_head;

pub fn is_empty(store: &[u8]) -> Result<bool, NotAStore>
    ensures promise { IsEmpty layout store.now (empty_reply result) }
    ensures is { result ≡ empty_call store.now }
{
    let h = read_head(store)?;
    Ok(h.leaves == 0)
}

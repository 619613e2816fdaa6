// Whether a store is one that the calls keep: the check of document 01, which the crate audit makes.
ghost use Rattle.promises.specs.Promises.{Check};
ghost use Rattle.index_spec.specs.Layout.{layout};
ghost use Rattle.index_spec.specs.Replies.{check_reply};

use node::NotAStore;

pub fn check(store: &[u8]) -> Result<(), NotAStore>
    ensures { Check layout store.now (check_reply result) }
{
    audit::check(store)
}

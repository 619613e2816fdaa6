// The refusals of an insertion.
ghost use Rattle.std.specs.Prelude.{◌≡◌};
ghost use Rattle.index_spec.specs.Replies.{refused_insert};
ghost use Rattle.index_spec.specs.declared.insert.InsertError.TheVariants.{Store};

use node::NotAStore;
use trie_spec::insert::PutError;

#[derive(Clone, Copy, Debug, PartialEq, Eq)]
pub enum InsertError {
    // the slice is too short, the header is wrong, or the store holds no tree
    Store,
    // the key is longer than 64 bytes
    Key,
    // the closest leaf is at the limit, and a new branch would lie above it
    Height,
    Full,
}

impl From<NotAStore> for InsertError {
    ghost from_gives = { λ _ e. e ≡ Store };

    fn from(_bytes: NotAStore) -> InsertError {
        InsertError::Store
    }
}

impl From<PutError> for InsertError {
    ghost from_gives = { λ p e. e ≡ refused_insert p };

    fn from(put: PutError) -> InsertError {
        match put {
            PutError::Store => InsertError::Store,
            PutError::Height => InsertError::Height,
            PutError::Full => InsertError::Full,
        }
    }
}

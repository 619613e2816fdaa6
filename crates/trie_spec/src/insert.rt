// The answers of an insertion.
ghost use Rattle.std.specs.Prelude.{◌≡◌};
ghost use Rattle.trie_spec.specs.declared.insert.PutError.TheVariants.{Store as StoreRefusal};

use node::NotAStore;

// What a key that went in found: nothing under it, or another value.
#[derive(Clone, Copy, Debug, PartialEq, Eq)]
pub enum Inserted {
    New,
    Replaced,
}

#[derive(Clone, Copy, Debug, PartialEq, Eq)]
pub enum PutError {
    // the store holds no tree
    Store,
    // the new leaf would lie deeper than the limit
    Height,
    // no record is free
    Full,
}

impl From<NotAStore> for PutError {
    ghost from_gives = { λ _ e. e ≡ StoreRefusal };

    fn from(_bytes: NotAStore) -> PutError {
        PutError::Store
    }
}

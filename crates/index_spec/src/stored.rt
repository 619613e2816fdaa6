// The refusals of the calls for a stored key: its value is read or replaced, or it is taken out.
ghost use Rattle.std.specs.Prelude.{◌≡◌};
ghost use Rattle.index_spec.specs.declared.stored.LookupError.TheVariants.{Store};

use node::NotAStore;

#[derive(Clone, Copy, Debug, PartialEq, Eq)]
pub enum LookupError {
    // the slice is too short, the header is wrong, or the store holds no tree
    Store,
    // the key is longer than 64 bytes
    Key,
    // the key is not stored
    Absent,
}

impl From<NotAStore> for LookupError {
    ghost from_gives = { λ _ e. e ≡ Store };

    fn from(_bytes: NotAStore) -> LookupError {
        LookupError::Store
    }
}

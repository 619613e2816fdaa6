// The mode of a listing, and the refusals of a page.
ghost use Rattle.std.specs.Prelude.{◌≡◌};
ghost use Rattle.index_spec.specs.declared.pages.PageError.TheVariants.{Store};

use node::NotAStore;

// Whether the key that is equal to the prefix is listed.
#[derive(Clone, Copy, Debug, PartialEq, Eq)]
pub enum Mode {
    Plain,
    Inclusive,
}

#[derive(Clone, Copy, Debug, PartialEq, Eq)]
pub enum PageError {
    // the slice is too short, the header is wrong, or the store holds no tree
    Store,
    // the prefix or the after-key is longer than 64 bytes
    Key,
    // the size is 0 or over 256, or the output is shorter than 74 bytes for each entry
    Count,
}

impl From<NotAStore> for PageError {
    ghost from_gives = { λ _ e. e ≡ Store };

    fn from(_bytes: NotAStore) -> PageError {
        PageError::Store
    }
}

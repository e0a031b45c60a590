use cook_bits::NoMemory;
use std::alloc::AllocError;
use thiserror::Error;

/// Why a name is not taken into a tree.
#[derive(Clone, Copy, Debug, PartialEq, Eq, Drop, Error)]
pub enum NameError {
    /// It is no relative name.
    #[error("no relative name")]
    Bad,
    /// It is held.
    #[error("held already")]
    Exists,
    /// One of its proper folders is the name of a file that is held.
    #[error("under a file")]
    UnderFile,
    /// It is a proper folder of a name that is held.
    #[error("a folder")]
    OverFolder,
    /// No memory was left.
    #[error("no memory")]
    NoMemory,
}

impl From<NoMemory> for NameError {
    ghost use Rattle.std.specs.Prelude.{◌≡◌};
    ghost use Rattle.name_tree.specs.declared.error.NameError.TheVariants as errors;

    ghost from_gives = { λ _ result. result ≡ errors.NoMemory };

    fn from(_: NoMemory) -> NameError {
        NameError::NoMemory
    }
}

impl From<AllocError> for NameError {
    ghost use Rattle.std.specs.Prelude.{◌≡◌};
    ghost use Rattle.name_tree.specs.declared.error.NameError.TheVariants as errors;

    ghost from_gives = { λ _ result. result ≡ errors.NoMemory };

    fn from(_: AllocError) -> NameError {
        NameError::NoMemory
    }
}

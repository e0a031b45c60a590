// Why a directory is not packed, and the errors of the calls below as those of pack.
use cook_bits::{Name, NoMemory};
use shelf_core::ShelfError;
use std::alloc::{AllocError, AllocFailed};
use thiserror::Error;

/// Why pack refuses a directory: the rule that its first offending file breaks, in the order in which the rules are tried.
#[derive(Clone, Copy, Debug, PartialEq, Eq, Error)]
pub enum RefuseWhy {
    /// It is no plain file: a link, a pipe or a device.
    #[error("not a plain file")]
    NotPlain,
    /// Its name isn't a relative name.
    #[error("bad name")]
    BadName,
    /// The entry before it has the same name.
    #[error("listed twice")]
    Twice,
    /// A folder of its name is itself a listed file.
    #[error("under a file")]
    UnderFile,
    /// 1,000,000 entries stand before it.
    #[error("too many files")]
    TooManyFiles,
    /// With it the lengths add up to more than 2^50 bytes.
    #[error("too large")]
    TooLarge,
    /// It is a frame or a wave, which this stage does not code yet.
    #[error("not built yet")]
    Unbuilt,
}

/// Why packing was given up.
#[derive(Debug, Drop, Error)]
pub enum PackError {
    /// The directory's first offence.
    #[error("refused")]
    Refused { name: Name, why: RefuseWhy },
    /// The package's name is there already.
    #[error("in the way")]
    InTheWay { name: Name },
    /// A planned file that had `was` bytes gave only `now`.
    #[error("changed from {was} to {now} bytes")]
    Changed { name: Name, was: u64, now: u64 },
    /// A listed file isn't there when its length is asked.
    #[error("not there")]
    Missing { name: Name },
    /// The shelf failed.
    #[error("shelf fault")]
    Failed,
    /// No memory was left.
    #[error("no memory")]
    NoMemory,
}

impl From<ShelfError> for PackError {
    ghost use Rattle.std.specs.Prelude.{◌≡◌};
    ghost use Rattle.cook_pack.specs.Stops.{pack_error};

    ghost from_gives = { λ e result. result ≡ pack_error e };

    fn from(error: ShelfError) -> Self {
        match error {
            ShelfError::Failed => PackError::Failed,
            ShelfError::NoMemory => PackError::NoMemory,
        }
    }
}

impl From<NoMemory> for PackError {
    ghost use Rattle.std.specs.Prelude.{◌≡◌};
    ghost use Rattle.cook_pack.specs.declared.error.PackError.TheVariants as errors;

    ghost from_gives = { λ e result. result ≡ errors.NoMemory };

    fn from(_: NoMemory) -> Self {
        PackError::NoMemory
    }
}

impl From<AllocError> for PackError {
    ghost use Rattle.std.specs.Prelude.{◌≡◌};
    ghost use Rattle.cook_pack.specs.declared.error.PackError.TheVariants as errors;

    ghost from_gives = { λ e result. result ≡ errors.NoMemory };

    fn from(_: AllocError) -> Self {
        PackError::NoMemory
    }
}

impl<T: Drop> From<AllocFailed<T>> for PackError {
    ghost use Rattle.std.specs.Prelude.{◌≡◌};
    ghost use Rattle.cook_pack.specs.declared.error.PackError.TheVariants as errors;

    ghost from_gives = { λ e result. result ≡ errors.NoMemory };

    fn from(_: AllocFailed<T>) -> Self {
        PackError::NoMemory
    }
}

use cook_bits::NoMemory;
use shelf_core::PieceError;
use std::alloc::{AllocError, AllocFailed};

/// Why a reading stopped.
#[derive(Clone, Copy, Debug, PartialEq, Eq)]
pub enum ReadError<F> {
    /// The bytes break a rule of the format: its first fault.
    Fault(F),
    /// The file ended at `now`, before the length that was said of it.
    Short { now: u64 },
    /// The shelf failed.
    Failed,
    /// No memory was left.
    NoMemory,
}

impl<F> From<PieceError> for ReadError<F> {
    ghost use Rattle.std.specs.Prelude.{◌≡◌};
    ghost use Rattle.shelf_reader.specs.Errors.{read_error};

    ghost from_gives = { λ e result. result ≡ read_error e };

    fn from(error: PieceError) -> Self {
        match error {
            PieceError::Short { now } => ReadError::Short { now },
            PieceError::Failed => ReadError::Failed,
            PieceError::NoMemory => ReadError::NoMemory,
        }
    }
}

impl<F> From<NoMemory> for ReadError<F> {
    ghost use Rattle.std.specs.Prelude.{◌≡◌};
    ghost use Rattle.shelf_reader.specs.declared.error.ReadError.TheVariants as errors;

    ghost from_gives = { λ e result. result ≡ errors.NoMemory };

    fn from(_: NoMemory) -> Self {
        ReadError::NoMemory
    }
}

impl<F> From<AllocError> for ReadError<F> {
    ghost use Rattle.std.specs.Prelude.{◌≡◌};
    ghost use Rattle.shelf_reader.specs.declared.error.ReadError.TheVariants as errors;

    ghost from_gives = { λ e result. result ≡ errors.NoMemory };

    fn from(_: AllocError) -> Self {
        ReadError::NoMemory
    }
}

impl<T: Drop, F> From<AllocFailed<T>> for ReadError<F> {
    ghost use Rattle.std.specs.Prelude.{◌≡◌};
    ghost use Rattle.shelf_reader.specs.declared.error.ReadError.TheVariants as errors;

    ghost from_gives = { λ e result. result ≡ errors.NoMemory };

    fn from(_: AllocFailed<T>) -> Self {
        ReadError::NoMemory
    }
}

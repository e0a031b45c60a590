use cook_bits::{Name, NoMemory};
use shelf_core::ShelfError;
use std::alloc::AllocError;
use thiserror::Error;

/// Why a file of a package is not given back.
#[derive(Clone, Copy, Debug, PartialEq, Eq, Error)]
pub enum FileWhy {
    /// No file of its name is attached.
    #[error("not there")]
    Missing,
    /// Its content has another length than the side data says.
    #[error("another length")]
    Length,
    /// Its content has another MD5 than the side data says.
    #[error("another sum")]
    Sum,
}

/// The first fault of a package, in the order in which they are found.
#[derive(Debug, Drop, Error)]
pub enum PackageWhy {
    /// The element whose first byte stands at `place` breaks a rule of the format, and none before it does.
    #[error("bad structure at byte {place}")]
    Shape { place: u64 },
    /// The content of the track of this number is encoded.
    #[error("encoded track {track}")]
    Encoded { track: u64 },
    /// The track of this number has a codec that isn't read.
    #[error("unknown track {track}")]
    TrackUnknown { track: u64 },
    /// No attached file is side data.
    #[error("no side data")]
    NoSide,
    /// The field of the side data that begins at its byte `place` is faulty, and none before it is.
    #[error("bad side data at byte {place}")]
    SideBad { place: u64 },
    /// The name is the first of the side data that is not relative, not above the one before, or under one before.
    #[error("bad name in the side data")]
    SideNames { name: Name },
    /// The file of this name is the first that is faulty.
    #[error("bad file: {why}")]
    File { name: Name, why: FileWhy },
}

/// Why a package was not opened.
#[derive(Debug, Drop, Error)]
pub enum RestoreError {
    /// The package is faulty before its files. It is no `PackageWhy::File`.
    #[error("bad package: {0}")]
    Package(PackageWhy),
    /// The package is not there.
    #[error("not there")]
    Missing { name: Name },
    /// The package had `was` bytes and gave only `now`.
    #[error("changed from {was} to {now} bytes")]
    Changed { name: Name, was: u64, now: u64 },
    /// The shelf failed.
    #[error("shelf fault")]
    Failed,
    /// No memory was left.
    #[error("no memory")]
    NoMemory,
}

/// Why a file was not given back. The `number` is that of its record, from 0.
#[derive(Clone, Copy, Debug, PartialEq, Eq, Error)]
pub enum FileError {
    /// The file is faulty.
    #[error("bad file {number}: {why}")]
    File { number: u32, why: FileWhy },
    /// A file of its full name is there already.
    #[error("file {number} is in the way")]
    InTheWay { number: u32 },
    /// The package had `was` bytes and gave only `now`.
    #[error("changed from {was} to {now} bytes")]
    Changed { was: u64, now: u64 },
    /// The shelf failed.
    #[error("shelf fault")]
    Failed,
    /// No memory was left.
    #[error("no memory")]
    NoMemory,
}

impl From<ShelfError> for RestoreError {
    ghost use Rattle.std.specs.Prelude.{◌≡◌};
    ghost use Rattle.cook_restore.specs.Restoring.{restore_error};

    ghost from_gives = { λ e result. result ≡ restore_error e };

    fn from(error: ShelfError) -> Self {
        match error {
            ShelfError::Failed => RestoreError::Failed,
            ShelfError::NoMemory => RestoreError::NoMemory,
        }
    }
}

impl From<NoMemory> for RestoreError {
    ghost use Rattle.std.specs.Prelude.{◌≡◌};
    ghost use Rattle.cook_restore.specs.declared.error.RestoreError.TheVariants as errors;

    ghost from_gives = { λ e result. result ≡ errors.NoMemory };

    fn from(_: NoMemory) -> Self {
        RestoreError::NoMemory
    }
}

impl From<AllocError> for RestoreError {
    ghost use Rattle.std.specs.Prelude.{◌≡◌};
    ghost use Rattle.cook_restore.specs.declared.error.RestoreError.TheVariants as errors;

    ghost from_gives = { λ e result. result ≡ errors.NoMemory };

    fn from(_: AllocError) -> Self {
        RestoreError::NoMemory
    }
}

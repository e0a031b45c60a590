ghost use Rattle.std.specs.Prelude.{◌≡◌, ◌≢◌, ◌+◌, ◌^◌, ◌<◌, ◌≤◌, length, take, drop, OnOk, IfErr};
ghost use Rattle.shelf_core.specs.Reads.{OnlyReads, Caused};
ghost use Rattle.shelf_core.specs.Pieces.{EndsAt, EndsWithin, IsNotShort};
ghost use Rattle.shelf_core.specs.Told.{IsTold, HasFile, content};

use crate::{Shelf, ShelfError};
use thiserror::Error;

/// Why a piece of a file was not read.
#[derive(Clone, Copy, Debug, PartialEq, Eq, Error)]
pub enum PieceError {
    /// The file ended at `now`, before the end of the piece.
    #[error("ended at byte {now}")]
    Short { now: u64 },
    /// The shelf failed.
    #[error("shelf fault")]
    Failed,
    /// No memory was left on the shelf.
    #[error("no memory")]
    NoMemory,
}

impl From<ShelfError> for PieceError {
    ghost use Rattle.std.specs.Prelude.{◌≡◌};
    ghost use Rattle.shelf_core.specs.Pieces.{piece_error};

    ghost from_gives = { λ e result. result ≡ piece_error e };

    fn from(error: ShelfError) -> Self {
        match error {
            ShelfError::Failed => PieceError::Failed,
            ShelfError::NoMemory => PieceError::NoMemory,
        }
    }
}

/// Fills the piece with the bytes of a file from place `at` on. Where the file ends before the piece does, it answers
/// at which place. Where the shelf tells its files, a piece that lies in the file is always read whole, and the place
/// that is answered for another is the file's end, or `at` where the file ends before it.
pub fn read_piece<S: Shelf>(
    shelf: &mut S,
    name: &str,
    at: u64,
    piece: &mut [u8],
) -> Result<(), PieceError>
    requires there { HasFile (S.files shelf.old) name.now }
    requires fits { at + length piece.old < 2 ^ 64 }
    ensures read { OnOk result (IsTold (S.files shelf.old) → piece.new ≡ take (length piece.old) (drop at (content (S.files shelf.old) name.now))) }
    ensures short { IfErr result (EndsWithin at (length piece.old)) }
    ensures ended { IsTold (S.files shelf.old) → IfErr result (EndsAt at (length (content (S.files shelf.old) name.now))) }
    ensures whole { IsTold (S.files shelf.old) → at + length piece.old ≤ length (content (S.files shelf.old) name.now) → IfErr result IsNotShort }
    ensures kept { OnlyReads S.Shelf shelf.old shelf.new }
    ensures cause { Caused S.Shelf PieceError.Failed PieceError.NoMemory shelf.old shelf.new result }
{
    let count = shelf.read_at(name, at, piece)?;
    if count < piece.len() {
        let now = at + count as u64;
        return Err(PieceError::Short { now });
    }
    Ok(())
}

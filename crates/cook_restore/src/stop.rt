// Why the giving of a file stops.
ghost use Rattle.std.specs.Prelude.{◌≡◌};
ghost use Rattle.cook_restore.specs.Giving.{numbered, piece_stop};

use crate::{FileError, FileWhy};
use cook_bits::NoMemory;
use shelf_core::{CreateError, PieceError, ShelfError};

/// A refusal as [`FileError`] has it, before the number of the file is said.
#[derive(Clone, Copy, Debug, PartialEq, Eq)]
pub enum Stop {
    File(FileWhy),
    InTheWay,
    Changed { was: u64, now: u64 },
    Failed,
    NoMemory,
}

impl Stop {
    /// The refusal of the file of a number.
    pub fn of_file(self, number: u32) -> FileError
        ensures { result ≡ numbered number self }
    {
        match self {
            Stop::File(why) => FileError::File { number, why },
            Stop::InTheWay => FileError::InTheWay { number },
            Stop::Changed { was, now } => FileError::Changed { was, now },
            Stop::Failed => FileError::Failed,
            Stop::NoMemory => FileError::NoMemory,
        }
    }

    /// The refusal where a piece of a package of `len` bytes was not read or not written.
    pub fn of_piece(len: u64, error: PieceError) -> Stop
        ensures { result ≡ piece_stop len error }
    {
        match error {
            PieceError::Short { now } => Stop::Changed { was: len, now },
            PieceError::Failed => Stop::Failed,
            PieceError::NoMemory => Stop::NoMemory,
        }
    }
}

impl From<ShelfError> for Stop {
    ghost use Rattle.std.specs.Prelude.{◌≡◌};
    ghost use Rattle.cook_restore.specs.Giving.{shelf_stop};

    ghost from_gives = { λ e result. result ≡ shelf_stop e };

    fn from(error: ShelfError) -> Self {
        match error {
            ShelfError::Failed => Stop::Failed,
            ShelfError::NoMemory => Stop::NoMemory,
        }
    }
}

impl From<CreateError> for Stop {
    ghost use Rattle.std.specs.Prelude.{◌≡◌};
    ghost use Rattle.cook_restore.specs.Giving.{create_stop};

    ghost from_gives = { λ e result. result ≡ create_stop e };

    fn from(error: CreateError) -> Self {
        match error {
            CreateError::Exists => Stop::InTheWay,
            CreateError::Failed => Stop::Failed,
            CreateError::NoMemory => Stop::NoMemory,
        }
    }
}

impl From<NoMemory> for Stop {
    ghost use Rattle.std.specs.Prelude.{◌≡◌};
    ghost use Rattle.cook_restore.specs.declared.stop.Stop.TheVariants as stops;

    ghost from_gives = { λ e result. result ≡ stops.NoMemory };

    fn from(_: NoMemory) -> Self {
        Stop::NoMemory
    }
}

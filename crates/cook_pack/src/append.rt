// Bytes at the end of a file that is being written, in one piece or in two.
ghost use Rattle.std.specs.Prelude.{◌++◌, OnOk, OnErr};
ghost use Rattle.shelf_core.specs.Reads.{Caused, IsUnsealed};
ghost use Rattle.shelf_core.specs.Writes.{Grew, GrewInPart};

use shelf_core::{Shelf, ShelfError};

/// Appends a piece.
pub fn append_piece<S: Shelf>(shelf: &mut S, to: &str, piece: &[u8]) -> Result<(), ShelfError>
    requires { IsUnsealed S.Shelf shelf.old to.now }
    ensures ok { OnOk result (Grew S.Shelf shelf.old shelf.new to.now piece.now) }
    ensures err { OnErr result (GrewInPart S.Shelf shelf.old shelf.new to.now piece.now) }
    ensures cause { Caused S.Shelf ShelfError.Failed ShelfError.NoMemory shelf.old shelf.new result }
{
    shelf.append(to, piece)?;
    Ok(())
}

/// Appends two pieces, one after the other.
pub fn append_both<S: Shelf>(
    shelf: &mut S,
    to: &str,
    first: &[u8],
    second: &[u8],
) -> Result<(), ShelfError>
    requires { IsUnsealed S.Shelf shelf.old to.now }
    ensures ok { OnOk result (Grew S.Shelf shelf.old shelf.new to.now (first.now ++ second.now)) }
    ensures err { OnErr result (GrewInPart S.Shelf shelf.old shelf.new to.now (first.now ++ second.now)) }
    ensures cause { Caused S.Shelf ShelfError.Failed ShelfError.NoMemory shelf.old shelf.new result }
{
    append_piece(shelf, to, first)?;
    append_piece(shelf, to, second)?;
    Ok(())
}

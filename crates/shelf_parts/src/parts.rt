ghost use Rattle.std.specs.Prelude.{◌≡◌, ◌+◌, ◌-◌, ◌<◌, ◌≤◌, ◌^◌, length, min, OnOk, OnErr, IfOk, IfErr};
ghost use Rattle.shelf_core.specs.Pieces.{EndsAt, EndsWithin, IsNotShort};
ghost use Rattle.shelf_core.specs.Reads.{Tells, Has, Differ, IsUnsealed, OnlyReads, Caused};
ghost use Rattle.shelf_core.specs.Writes.{Grew, GrewInPart};
ghost use Rattle.shelf_parts.specs.Parts.{HoldsPiece, IsHeld, IsWhole, IsWithin, Sums, part_on, file_len};

use md5::{Digest, Md5};
use shelf_core::{PieceError, Shelf, read_piece};

/// A part of a file.
#[derive(Clone, Copy, Debug)]
pub struct FilePart<'a> {
    /// The name of the file.
    pub name: &'a str,
    /// Where the part starts.
    pub at: u64,
    /// The length of the part in bytes.
    pub len: u64,
}

// Reads the next piece of a part, behind those that are done, into the front of the buffer, and answers its length.
fn read_next<S: Shelf>(
    shelf: &mut S,
    part: FilePart<'_>,
    done: u64,
    buffer: &mut [u8],
) -> Result<usize, PieceError>
    requires there { Has S.Shelf shelf.old part.name.now }
    requires fits { part.at + part.len < 2 ^ 64 }
    requires left { done < part.len }
    ensures count { IfOk result (λ count. count ≡ min (part.entry.len - done) (length buffer.old)) }
    ensures read { IfOk result (HoldsPiece S.Shelf shelf.old part.entry done buffer.new) }
    ensures short { IfErr result (EndsWithin part.entry.at part.entry.len) }
    ensures ended { Tells S.Shelf shelf.old → IfErr result (EndsAt (part.entry.at + done) (file_len S.Shelf shelf.old part.entry)) }
    ensures whole { Tells S.Shelf shelf.old → IsWithin S.Shelf shelf.old part.entry → IfErr result IsNotShort }
    ensures kept { OnlyReads S.Shelf shelf.old shelf.new }
    ensures cause { Caused S.Shelf PieceError.Failed PieceError.NoMemory shelf.old shelf.new result }
{
    let count = (part.len - done).min(buffer.len() as u64) as usize;
    read_piece(shelf, part.name, part.at + done, &mut buffer[..count])?;
    Ok(count)
}

/// The MD5 of a part, read piece by piece: at most `buffer.len()` bytes are held at once. A part that fits the buffer is one
/// piece, and is left at its front. Where the file ends before the part does, it answers at which place.
#[tactic(auto, using(crate::specs::PartLaws::part_laws))]
pub fn sum_part<S: Shelf>(
    shelf: &mut S,
    part: FilePart<'_>,
    buffer: &mut [u8],
) -> Result<[u8; 16], PieceError>
    requires room { 0 < length buffer.old }
    requires there { Has S.Shelf shelf.old part.name.now }
    requires fits { part.at + part.len < 2 ^ 64 }
    ensures sum { IfOk result (Sums S.Shelf shelf.old part.entry) }
    ensures long { OnOk result (IsWhole S.Shelf shelf.old part.entry) }
    ensures held { OnOk result (IsHeld S.Shelf shelf.old part.entry buffer.new) }
    ensures short { IfErr result (EndsWithin part.entry.at part.entry.len) }
    ensures ended { Tells S.Shelf shelf.old → IfErr result (EndsAt part.entry.at (file_len S.Shelf shelf.old part.entry)) }
    ensures whole { Tells S.Shelf shelf.old → IsWithin S.Shelf shelf.old part.entry → IfErr result IsNotShort }
    ensures kept { OnlyReads S.Shelf shelf.old shelf.new }
    ensures cause { Caused S.Shelf PieceError.Failed PieceError.NoMemory shelf.old shelf.new result }
{
    let mut hasher = Md5::new();
    let mut done = 0;
    while done < part.len {
        let count = read_next(shelf, part, done, buffer)?;
        hasher.update(&buffer[..count]);
        done += count as u64;
    }
    Ok(hasher.finalize())
}

/// Appends a part to another file, piece by piece, and answers its MD5. At most `buffer.len()` bytes are held at once.
#[tactic(auto, using(shelf_core::specs::FileLaws::file_laws, shelf_core::specs::PieceLaws::piece_laws, crate::specs::PartLaws::part_laws))]
pub fn copy_part<S: Shelf>(
    shelf: &mut S,
    part: FilePart<'_>,
    to: &str,
    buffer: &mut [u8],
) -> Result<[u8; 16], PieceError>
    requires room { 0 < length buffer.old }
    requires there { Has S.Shelf shelf.old part.name.now }
    requires open { IsUnsealed S.Shelf shelf.old to.now }
    requires to_there { Has S.Shelf shelf.old to.now }
    requires apart { Differ S.Shelf shelf.old part.name.now to.now }
    requires fits { part.at + part.len < 2 ^ 64 }
    requires measured { Tells S.Shelf shelf.old → part.len ≤ file_len S.Shelf shelf.old part - part.at }
    ensures copied { OnOk result (Grew S.Shelf shelf.old shelf.new to.now (part_on S.Shelf shelf.old part.entry)) }
    ensures sum { IfOk result (Sums S.Shelf shelf.old part.entry) }
    ensures stopped { OnErr result (GrewInPart S.Shelf shelf.old shelf.new to.now (part_on S.Shelf shelf.old part.entry)) }
    ensures short { IfErr result (EndsWithin part.entry.at part.entry.len) }
    ensures whole { Tells S.Shelf shelf.old → IfErr result IsNotShort }
    ensures cause { Caused S.Shelf PieceError.Failed PieceError.NoMemory shelf.old shelf.new result }
{
    let mut hasher = Md5::new();
    let mut done = 0;
    while done < part.len {
        let count = read_next(shelf, part, done, buffer)?;
        let piece = &buffer[..count];
        hasher.update(piece);
        shelf.append(to, piece)?;
        done += count as u64;
    }
    Ok(hasher.finalize())
}

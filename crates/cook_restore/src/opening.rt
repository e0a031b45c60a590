// A package is opened: its length, its outline, its side data, and where the contents of its files stand.
ghost use Rattle.std.specs.Prelude.{◌≡◌, ◌+◌, ◌<◌, ◌≤◌, ◌^◌, length, IfOk, IfErr, OnOk};
ghost use Rattle.std.specs.Option.{option_map};
ghost use Rattle.shelf_core.specs.Reads.{OnlyReads, Has};
ghost use Rattle.reversal.specs.SideData.{AreNames, names_of};
ghost use Rattle.matroska_read.specs.Inside.{KeepsWithin};
ghost use Rattle.cook_restore.specs.Restoring.{AreBytesOf, AreRecordsOf, IsOutlineOf, StopsOpening, OpensOn, IsLenOf, NotOutlined, NotRead, NotRecorded, IsMissing};

use crate::contents::{contents_of, side_number};
use crate::folders::tree_of;
use crate::plain::plain_records;
use crate::{PackageWhy, RestoreError, Restorer};
use cook_bits::{Name, NoMemory};
use matroska_read::{FileAt, Outline, OutlineError, outline};
use reversal::{FileRecord, SideError};
use shelf_core::{PieceError, Shelf, read_piece};
use std::alloc::Global;

/// How many bytes of a content are held at once, at most.
const ROOM: u64 = 16 << 20;

// A package isn't there.
fn missing(alloc: Global, pkg: &str) -> RestoreError
    ensures { IsMissing pkg.now result }
{
    match Name::copy(alloc, pkg) {
        Ok(name) => RestoreError::Missing { name },
        Err(NoMemory) => RestoreError::NoMemory,
    }
}

// Why a piece of a package of `len` bytes was not read.
fn not_read(alloc: Global, pkg: &str, len: u64, error: PieceError) -> RestoreError
    ensures { NotRead pkg.now len error result }
{
    match error {
        PieceError::Failed => RestoreError::Failed,
        PieceError::NoMemory => RestoreError::NoMemory,
        PieceError::Short { now } => match Name::copy(alloc, pkg) {
            Ok(name) => RestoreError::Changed {
                name,
                was: len,
                now,
            },
            Err(NoMemory) => RestoreError::NoMemory,
        },
    }
}

// Why a package of `len` bytes has no outline.
fn not_outlined(alloc: Global, pkg: &str, len: u64, error: OutlineError) -> RestoreError
    ensures { NotOutlined pkg.now len error result }
{
    match error {
        OutlineError::Shape { place } => RestoreError::Package(PackageWhy::Shape { place }),
        OutlineError::Encoded { track } => RestoreError::Package(PackageWhy::Encoded { track }),
        OutlineError::TrackUnknown { track } => {
            RestoreError::Package(PackageWhy::TrackUnknown { track })
        }
        OutlineError::Failed => RestoreError::Failed,
        OutlineError::NoMemory => RestoreError::NoMemory,
        OutlineError::Short { now } => not_read(alloc, pkg, len, PieceError::Short { now }),
    }
}

// Why side data has no records.
fn not_recorded(error: SideError) -> RestoreError
    ensures { NotRecorded error result }
{
    match error {
        SideError::SideBad { place } => RestoreError::Package(PackageWhy::SideBad { place }),
        SideError::SideNames { name } => RestoreError::Package(PackageWhy::SideNames { name }),
        SideError::NoMemory => RestoreError::NoMemory,
    }
}

// The length of a package that is there.
fn package_len<S: Shelf>(alloc: Global, shelf: &mut S, pkg: &str) -> Result<u64, RestoreError>
    ensures there { OnOk result (Has S.Shelf shelf.old pkg.now) }
    ensures len { IfOk result (IsLenOf S.Shelf shelf.old pkg.now) }
    ensures stopped { IfErr result (StopsOpening S.Shelf shelf.old shelf.new pkg.now) }
    ensures kept { OnlyReads S.Shelf shelf.old shelf.new }
{
    match shelf.len(pkg)? {
        Some(len) => Ok(len),
        None => Err(missing(alloc, pkg)),
    }
}

// The outline of a package of `len` bytes.
fn package_outline<S: Shelf>(
    alloc: Global,
    shelf: &mut S,
    pkg: &str,
    len: u64,
) -> Result<Outline, RestoreError>
    requires there { Has S.Shelf shelf.old pkg.now }
    requires len { IsLenOf S.Shelf shelf.old pkg.now len }
    ensures outline { IfOk result (IsOutlineOf S.Shelf shelf.old pkg.now) }
    ensures within { IfOk result (KeepsWithin len) }
    ensures stopped { IfErr result (StopsOpening S.Shelf shelf.old shelf.new pkg.now) }
    ensures kept { OnlyReads S.Shelf shelf.old shelf.new }
{
    match outline(alloc, shelf, pkg, len) {
        Ok(outline) => Ok(outline),
        Err(error) => Err(not_outlined(alloc, pkg, len, error)),
    }
}

// The bytes of a file that is attached to a package of `len` bytes.
fn attached_bytes<S: Shelf>(
    alloc: Global,
    shelf: &mut S,
    pkg: &str,
    len: u64,
    file: &FileAt,
) -> Result<Vec<u8>, RestoreError>
    requires there { Has S.Shelf shelf.old pkg.now }
    requires len { IsLenOf S.Shelf shelf.old pkg.now len }
    requires ends { file.now.at + file.now.len ≤ len }
    ensures bytes { IfOk result (λ bytes. AreBytesOf S.Shelf shelf.old pkg.now file.now bytes.items) }
    ensures stopped { IfErr result (StopsOpening S.Shelf shelf.old shelf.new pkg.now) }
    ensures kept { OnlyReads S.Shelf shelf.old shelf.new }
{
    let mut bytes = Vec::new(alloc);
    bytes.resize(file.len as usize, 0)?;
    match read_piece(shelf, pkg, file.at, bytes.as_mut_slice()) {
        Ok(()) => Ok(bytes),
        Err(error) => Err(not_read(alloc, pkg, len, error)),
    }
}

// The records of the side data of a package of `len` bytes.
fn package_records<S: Shelf>(
    alloc: Global,
    shelf: &mut S,
    pkg: &str,
    len: u64,
    outline: &Outline,
) -> Result<Vec<FileRecord>, RestoreError>
    requires there { Has S.Shelf shelf.old pkg.now }
    requires len { IsLenOf S.Shelf shelf.old pkg.now len }
    requires outline { IsOutlineOf S.Shelf shelf.old pkg.now outline.now }
    requires within { KeepsWithin len outline.now }
    ensures records { IfOk result (λ records. AreRecordsOf S.Shelf shelf.old pkg.now outline.now records.items) }
    ensures few { IfOk result (λ records. length records.items < 2 ^ 32) }
    ensures named { IfOk result (λ records. AreNames (names_of records.items)) }
    ensures stopped { IfErr result (StopsOpening S.Shelf shelf.old shelf.new pkg.now) }
    ensures kept { OnlyReads S.Shelf shelf.old shelf.new }
{
    let files = outline.files();
    let Some(number) = side_number(files) else {
        return Err(RestoreError::Package(PackageWhy::NoSide));
    };
    let bytes = attached_bytes(alloc, shelf, pkg, len, &files[number])?;
    match plain_records(alloc, bytes.as_slice()) {
        Ok(records) => Ok(records),
        Err(error) => Err(not_recorded(error)),
    }
}

// How many bytes are held at once: as many as the largest file has, up to `ROOM`, and at least one.
fn room_for(records: &[FileRecord]) -> usize
    ensures { 0 < result }
{
    let largest = records.iter().map(|said| said.length).max().unwrap_or(0);
    largest.min(ROOM).max(1) as usize
}

// A buffer of so many bytes.
fn buffer_of(alloc: Global, len: usize) -> Result<Vec<u8>, NoMemory>
    ensures { IfOk result (λ buffer. length buffer.items ≡ len) }
{
    let mut buffer = Vec::new(alloc);
    buffer.resize(len, 0)?;
    Ok(buffer)
}

// A copy of the name of a target, if there is one.
fn target_name(alloc: Global, target: Option<&str>) -> Result<Option<Name>, NoMemory>
    ensures { IfOk result (λ copy. copy ≡ option_map (λ name. name.now) target.entry) }
{
    match target {
        Some(name) => Ok(Some(Name::copy(alloc, name)?)),
        None => Ok(None),
    }
}

/// Opens a package, whose files are then given one by one, by [`Restorer::next_file`], and written under `target` if there
/// is one. The number of workers has no effect yet.
///
/// `Missing` comes where the package isn't there, `Package` where it is faulty before its files, `Changed` where it gave
/// fewer bytes than it had. What the shelf tells stays as it was.
pub fn open_package<S: Shelf>(
    alloc: Global,
    shelf: &mut S,
    pkg: &str,
    target: Option<&str>,
    workers: u32,
) -> Result<Restorer, RestoreError>
    requires workers { (1 ≤ workers) × (workers ≤ 64) }
    ensures opened { IfOk result (OpensOn S.Shelf shelf.old pkg.now (option_map (λ name. name.now) target.entry)) }
    ensures stopped { IfErr result (StopsOpening S.Shelf shelf.old shelf.new pkg.now) }
    ensures kept { OnlyReads S.Shelf shelf.old shelf.new }
{
    let _ = workers;
    let len = package_len(alloc, shelf, pkg)?;
    let outline = package_outline(alloc, shelf, pkg, len)?;
    let records = package_records(alloc, shelf, pkg, len, &outline)?;
    let contents = contents_of(alloc, outline.files(), &records)?;
    let names = tree_of(alloc, &records)?;
    let room = room_for(records.as_slice());
    Ok(Restorer {
        pkg: Name::copy(alloc, pkg)?,
        len,
        outline,
        records,
        contents,
        target: target_name(alloc, target)?,
        number: 0,
        ended: false,
        names,
        buffer: buffer_of(alloc, room)?,
    })
}

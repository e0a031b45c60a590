// The planned files that are attached as they are, and the records that the side data keeps of them.
ghost use Rattle.std.specs.Prelude.{◌≡◌, ◌<◌, ◌^◌, length, false, IfOk, OnOk, OnErr, IfErr};
ghost use Rattle.shelf_core.specs.Reads.{Tells, Has, Differ, IsUnsealed, bytes_of};
ghost use Rattle.shelf_core.specs.Writes.{Grew, GrewInPart};
ghost use Rattle.cook_pack.specs.Attaching.{AreRecordsOf, CanAttach, CanAttachFile, IsRecordOf, attached_on, file_on, files_on, others_on};
ghost use Rattle.cook_pack.specs.Package.{attachment, others_of};
ghost use Rattle.matroska_write.specs.Attached.{attached_file};
ghost use Rattle.cook_pack.specs.Planned.{Planned, IsInPlan};
ghost use Rattle.cook_pack.specs.Stops.{StopsFor, StopsFrom};
ghost use Rattle.md5.specs.Md5.{md5};

use crate::append::append_piece;
use crate::{PackError, Plan, PlannedFile, PlannedKind};
use cook_bits::{Bytes, Name, NoMemory, full_name};
use matroska_write::attached_head;
use reversal::{FileRecord, Kind};
use shelf_core::{PieceError, Shelf};
use shelf_parts::{FilePart, copy_part};
use std::alloc::{AllocError, Global};

/// A file that is to be attached.
#[derive(Clone, Copy, Debug)]
pub struct Attachment<'a> {
    /// Its relative name.
    pub name: &'a str,
    /// The length of its content in bytes.
    pub len: u64,
    /// Its FileUID: its number among the attachments, from 1 (RFC 9559, section 5.1.6.1).
    pub uid: u64,
}

// The cause for which a file was not copied whole.
fn not_copied(alloc: Global, file: Attachment<'_>, error: PieceError) -> PackError
    ensures { StopsFrom file.entry.name.now file.entry.len error result }
{
    match error {
        PieceError::Failed => PackError::Failed,
        PieceError::NoMemory => PackError::NoMemory,
        PieceError::Short { now } => match Name::copy(alloc, file.name) {
            Ok(name) => PackError::Changed {
                name,
                was: file.len,
                now,
            },
            Err(NoMemory) => PackError::NoMemory,
        },
    }
}

/// Appends a file as an attachment: its head, then its bytes. Answers its MD5.
#[tactic(auto, using(shelf_core::specs::FileLaws::file_laws, crate::proofs::AttachLaws::attach_laws))]
pub fn attach_file<S: Shelf>(
    alloc: Global,
    shelf: &mut S,
    from: &str,
    file: Attachment<'_>,
    to: &str,
    buffer: &mut [u8],
) -> Result<[u8; 16], PackError>
    requires room { 0 < length buffer.old }
    requires name { length file.name.now < 2 ^ 54 }
    requires len { file.len < 2 ^ 54 }
    requires there { Has S.Shelf shelf.old from.now }
    requires open { IsUnsealed S.Shelf shelf.old to.now }
    requires to_there { Has S.Shelf shelf.old to.now }
    requires apart { Differ S.Shelf shelf.old from.now to.now }
    requires measured { Tells S.Shelf shelf.old → file.len ≡ length (bytes_of S.Shelf shelf.old from.now) }
    ensures attached { OnOk result (Grew S.Shelf shelf.old shelf.new to.now (attached_on S.Shelf shelf.old from.now file.entry.name.now file.entry.uid)) }
    ensures sum { IfOk result (λ sum. Tells S.Shelf shelf.old → sum ≡ md5 (bytes_of S.Shelf shelf.old from.now)) }
    ensures stopped { OnErr result (GrewInPart S.Shelf shelf.old shelf.new to.now (attached_on S.Shelf shelf.old from.now file.entry.name.now file.entry.uid)) }
    ensures cause { (plan : Planned) → IsInPlan plan file.entry.name.now file.entry.len
        → IfErr result (StopsFor S.Shelf shelf.old shelf.new plan) }
{
    let head = attached_head(alloc, file.name, false, file.uid, file.len)?;
    append_piece(shelf, to, head.as_slice())?;
    let part = FilePart {
        name: from,
        at: 0,
        len: file.len,
    };
    match copy_part(shelf, part, to, buffer) {
        Ok(sum) => Ok(sum),
        Err(error) => Err(not_copied(alloc, file, error)),
    }
}

/// Attaches a planned file that stands under a root, with its FileUID, and answers its record.
#[tactic(auto, using(crate::proofs::AttachLaws::attach_laws))]
fn attach_planned<S: Shelf>(
    alloc: Global,
    shelf: &mut S,
    root: &str,
    file: &PlannedFile,
    uid: u64,
    to: &str,
    buffer: &mut [u8],
) -> Result<FileRecord, PackError>
    requires room { 0 < length buffer.old }
    requires ready { CanAttachFile S.Shelf shelf.old root.now to.now file.now }
    requires open { IsUnsealed S.Shelf shelf.old to.now }
    requires to_there { Has S.Shelf shelf.old to.now }
    ensures attached { let file = file_on S.Shelf shelf.old root.now file.now in
        OnOk result (Grew S.Shelf shelf.old shelf.new to.now (attachment uid file)) }
    ensures record { IfOk result (IsRecordOf S.Shelf shelf.old (file_on S.Shelf shelf.old root.now file.now)) }
    ensures stopped { let file = file_on S.Shelf shelf.old root.now file.now in
        OnErr result (GrewInPart S.Shelf shelf.old shelf.new to.now (attachment uid file)) }
    ensures cause { (plan : Planned) → IsInPlan plan file.now.name file.now.length
        → IfErr result (StopsFor S.Shelf shelf.old shelf.new plan) }
{
    let name = file.name.as_str();
    let from = full_name(alloc, root, name)?;
    let held = Name::copy(alloc, name)?;
    let attachment = Attachment {
        name,
        len: file.length,
        uid,
    };
    let md5 = attach_file(alloc, shelf, from.as_str(), attachment, to, buffer)?;
    Ok(FileRecord {
        name: held,
        kind: Kind::Other,
        length: file.length,
        md5,
        head: Bytes::new(alloc),
        pads: Bytes::new(alloc),
        tail: Bytes::new(alloc),
    })
}

/// How much of a file is read and appended at once, in bytes.
const PIECE: usize = 1 << 20;

fn buffer_of(alloc: Global, len: usize) -> Result<Vec<u8>, AllocError>
    requires { 0 < len }
    ensures { IfOk result (λ buffer. 0 < length buffer.items) }
{
    vec![in alloc; 0u8; len]
}

/// Attaches the planned files that are attached as they are, in their order and numbered from 1, and answers their records.
pub fn attach_others<S: Shelf>(
    alloc: Global,
    shelf: &mut S,
    plan: &Plan,
    to: &str,
) -> Result<Vec<FileRecord>, PackError>
    requires ready { CanAttach S.Shelf shelf.old plan.now to.now }
    requires open { IsUnsealed S.Shelf shelf.old to.now }
    requires to_there { Has S.Shelf shelf.old to.now }
    ensures attached { OnOk result (Grew S.Shelf shelf.old shelf.new to.now (others_on S.Shelf shelf.old plan.now)) }
    ensures records { let files = others_of (files_on S.Shelf shelf.old plan.now) in
        IfOk result (λ records. AreRecordsOf S.Shelf shelf.old files records.items) }
    ensures stopped { OnErr result (GrewInPart S.Shelf shelf.old shelf.new to.now (others_on S.Shelf shelf.old plan.now)) }
    ensures cause { IfErr result (StopsFor S.Shelf shelf.old shelf.new plan.now) }
{
    let mut held = buffer_of(alloc, PIECE)?;
    let buffer = held.as_mut_slice();
    let mut records = Vec::new(alloc);
    let mut uid = 1;
    let files = plan.as_slice();
    for file in files {
        match file.kind {
            PlannedKind::Other => {
                let record = attach_planned(alloc, shelf, plan.root(), file, uid, to, buffer)?;
                records.push(record)?;
                uid += 1;
            }
        }
    }
    Ok(records)
}

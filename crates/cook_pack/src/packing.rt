// The package as a whole: its creation, its parts in their order, its sealing.
ghost use Rattle.std.specs.Prelude.{◌≡◌, ◌<◌, ◌≤◌, ◌^◌, length, List, ℕ, OnOk, OnErr, IfOk, IfErr};
ghost use Rattle.cook_bits.specs.Names.{File};
ghost use Rattle.reversal.specs.SideData.{AreRecords, all_parts_len};
ghost use Rattle.shelf_core.specs.Reads.{CountsStay, Has, IsUnsealed, Tells};
ghost use Rattle.shelf_core.specs.Writes.{Created, Grew, GrewInPart, Wrote};
ghost use Rattle.cook_pack.specs.Attaching.{CanAttach, attachments_bytes_on, attachments_on, package_on};
ghost use Rattle.cook_pack.specs.Package.{package_of, side_attached};
ghost use Rattle.cook_pack.specs.Planned.{Planned, FitsShelf, directory_of};
ghost use Rattle.cook_pack.specs.Stops.{StopsFor, LeavesFor, IsNotPacked, NotCreated};
ghost use Rattle.cook_pack.specs.Sum.{IsSumOf};

use crate::append::{append_both, append_piece};
use crate::attach::attach_others;
use crate::lengths::attachments_len;
use crate::{PackError, Plan};
use cook_bits::{Name, NoMemory};
use matroska_names::texts::SIDE_NAME;
use matroska_write::{attached_head, attachments_head, header};
use reversal::FileRecord;
use shelf_core::{CreateError, Shelf};
use std::alloc::Global;

/// How a package is written.
#[derive(Clone, Copy, Debug)]
pub struct Options {
    /// How many workers code frames.
    pub workers: u32,
    /// Frames a second.
    pub rate: u32,
}

/// What was packed.
#[derive(Clone, Copy, Debug, PartialEq, Eq)]
pub struct PackSum {
    /// The files of the directory.
    pub files: u32,
    /// The tracks of the package.
    pub tracks: u32,
    /// The blocks of all tracks.
    pub blocks: u64,
    /// The bytes of the package.
    pub bytes: u64,
}

// Attaches the side data of records, with its FileUID.
fn attach_side<S: Shelf>(
    alloc: Global,
    shelf: &mut S,
    uid: u64,
    records: &[FileRecord],
    to: &str,
) -> Result<(), PackError>
    requires are { AreRecords records.now }
    requires small { all_parts_len records.now < 2 ^ 52 }
    requires few { length records.now ≤ 1000000 }
    requires open { IsUnsealed S.Shelf shelf.old to.now }
    requires to_there { Has S.Shelf shelf.old to.now }
    ensures attached { OnOk result (Grew S.Shelf shelf.old shelf.new to.now (side_attached uid records.now)) }
    ensures stopped { OnErr result (GrewInPart S.Shelf shelf.old shelf.new to.now (side_attached uid records.now)) }
    ensures cause { (plan : Planned) → IfErr result (StopsFor S.Shelf shelf.old shelf.new plan) }
{
    let side = reversal::write(alloc, records)?;
    let len = side.as_slice().len() as u64;
    let head = attached_head(alloc, SIDE_NAME, true, uid, len)?;
    append_both(shelf, to, head.as_slice(), side.as_slice())?;
    Ok(())
}

// Attaches the planned files and the side data.
fn attach_all<S: Shelf>(
    alloc: Global,
    shelf: &mut S,
    plan: &Plan,
    to: &str,
) -> Result<(), PackError>
    requires ready { CanAttach S.Shelf shelf.old plan.now to.now }
    requires open { IsUnsealed S.Shelf shelf.old to.now }
    requires to_there { Has S.Shelf shelf.old to.now }
    ensures attached { OnOk result (Grew S.Shelf shelf.old shelf.new to.now (attachments_on S.Shelf shelf.old plan.now)) }
    ensures stopped { OnErr result (GrewInPart S.Shelf shelf.old shelf.new to.now (attachments_on S.Shelf shelf.old plan.now)) }
    ensures cause { IfErr result (StopsFor S.Shelf shelf.old shelf.new plan.now) }
{
    let attached = attach_others(alloc, shelf, plan, to)?;
    let records = attached.as_slice();
    let uid = records.len() as u64 + 1;
    attach_side(alloc, shelf, uid, records, to)?;
    Ok(())
}

// Writes the Attachments, and answers their length.
fn write_attachments<S: Shelf>(
    alloc: Global,
    shelf: &mut S,
    plan: &Plan,
    to: &str,
) -> Result<u64, PackError>
    requires ready { CanAttach S.Shelf shelf.old plan.now to.now }
    requires open { IsUnsealed S.Shelf shelf.old to.now }
    requires to_there { Has S.Shelf shelf.old to.now }
    ensures written { OnOk result (Grew S.Shelf shelf.old shelf.new to.now (attachments_bytes_on S.Shelf shelf.old plan.now)) }
    ensures bytes { IfOk result (λ bytes. Tells S.Shelf shelf.old → bytes ≡ length (attachments_bytes_on S.Shelf shelf.old plan.now)) }
    ensures small { IfOk result (λ bytes. bytes < 2 ^ 55) }
    ensures stopped { OnErr result (GrewInPart S.Shelf shelf.old shelf.new to.now (attachments_bytes_on S.Shelf shelf.old plan.now)) }
    ensures cause { IfErr result (StopsFor S.Shelf shelf.old shelf.new plan.now) }
{
    let content = attachments_len(plan);
    let head = attachments_head(alloc, content)?;
    append_piece(shelf, to, head.as_slice())?;
    attach_all(alloc, shelf, plan, to)?;
    Ok(head.as_slice().len() as u64 + content)
}

// Writes the whole package, part by part, and answers its length.
fn write_package<S: Shelf>(
    alloc: Global,
    shelf: &mut S,
    plan: &Plan,
    to: &str,
) -> Result<u64, PackError>
    requires ready { CanAttach S.Shelf shelf.old plan.now to.now }
    requires open { IsUnsealed S.Shelf shelf.old to.now }
    requires to_there { Has S.Shelf shelf.old to.now }
    ensures written { (rate : ℕ) → OnOk result (Grew S.Shelf shelf.old shelf.new to.now (package_on S.Shelf shelf.old plan.now rate)) }
    ensures bytes { (rate : ℕ) → IfOk result (λ bytes. Tells S.Shelf shelf.old → bytes ≡ length (package_on S.Shelf shelf.old plan.now rate)) }
    ensures stopped { (rate : ℕ) → OnErr result (GrewInPart S.Shelf shelf.old shelf.new to.now (package_on S.Shelf shelf.old plan.now rate)) }
    ensures cause { IfErr result (StopsFor S.Shelf shelf.old shelf.new plan.now) }
{
    let header = header(alloc)?;
    append_piece(shelf, to, header.as_slice())?;
    let attachments = write_attachments(alloc, shelf, plan, to)?;
    Ok(header.as_slice().len() as u64 + attachments)
}

// The refusal for which a package was not created.
fn not_created(alloc: Global, pkg: &str, error: CreateError) -> PackError
    ensures { NotCreated pkg.now error result }
{
    match error {
        CreateError::Failed => PackError::Failed,
        CreateError::NoMemory => PackError::NoMemory,
        CreateError::Exists => match Name::copy(alloc, pkg) {
            Ok(name) => PackError::InTheWay { name },
            Err(NoMemory) => PackError::NoMemory,
        },
    }
}

// Creates the package, empty.
fn create_package<S: Shelf>(alloc: Global, shelf: &mut S, pkg: &str) -> Result<(), PackError>
    ensures created { OnOk result (Created S.Shelf shelf.old shelf.new pkg.now) }
    ensures left { (directory : List File) (rate : ℕ) → IfErr result (LeavesFor S.Shelf shelf.old shelf.new pkg.now directory rate) }
    ensures cause { (plan : Planned) → IfErr result (IsNotPacked S.Shelf shelf.old shelf.new plan) }
    ensures counts { CountsStay S.Shelf shelf.old shelf.new }
{
    match shelf.create(pkg) {
        Ok(()) => Ok(()),
        Err(error) => Err(not_created(alloc, pkg, error)),
    }
}

/// Writes the package of a planned directory under the name `pkg`, which is free, and seals it.
///
/// The answer is `InTheWay` where the name is there; `Changed` for a file of the plan that gave only `now` bytes, with its
/// name and its length `was` there; `Failed` where the shelf failed. After any refusal but `InTheWay` the package isn't
/// there, or stands unsealed with a front of its bytes.
pub fn pack<S: Shelf>(
    alloc: Global,
    shelf: &mut S,
    plan: &Plan,
    pkg: &str,
    options: Options,
) -> Result<PackSum, PackError>
    requires workers { (1 ≤ options.workers) × (options.workers ≤ 64) }
    requires rate { (1 ≤ options.rate) × (options.rate ≤ 240) }
    requires fits { FitsShelf S.Shelf shelf.old plan.now }
    ensures packed { OnOk result (Wrote S.Shelf shelf.old shelf.new pkg.now (package_of (directory_of S.Shelf shelf.old plan.now.root) options.rate)) }
    ensures sum { IfOk result (λ sum. Tells S.Shelf shelf.old → IsSumOf (directory_of S.Shelf shelf.old plan.now.root) options.rate sum) }
    ensures left { IfErr result (LeavesFor S.Shelf shelf.old shelf.new pkg.now (directory_of S.Shelf shelf.old plan.now.root) options.rate) }
    ensures cause { IfErr result (IsNotPacked S.Shelf shelf.old shelf.new plan.now) }
    ensures counts { CountsStay S.Shelf shelf.old shelf.new }
{
    let files = plan.files();
    create_package(alloc, shelf, pkg)?;
    let bytes = write_package(alloc, shelf, plan, pkg)?;
    shelf.seal(pkg)?;
    Ok(PackSum {
        files,
        tracks: plan.tracks(),
        blocks: 0,
        bytes,
    })
}

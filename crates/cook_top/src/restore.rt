// Restoring: the files of a package, given back one by one into an empty target.
ghost use Rattle.std.specs.Prelude.{◌≡◌, ◌≤◌, ◌<◌, ◌+◌, ◌*◌, ◌^◌, ℕ, [], length, IfOk, IfErr, OnOk, None, Some};
ghost use Rattle.shelf_core.specs.Reads.{CountsStay, OnlyReads};
ghost use Rattle.cook_top.specs.Laws.{KeepsSealed, ShowsFor};
ghost use Rattle.cook_top.specs.Orders.Order.{Restore as OrderRestore};
ghost use Rattle.cook_top.specs.Restoring.{CountsFiles, FirstName, IsEmptyRoot, IsFirstPlace, IsNumbered, IsStatusOf, IsUndone, LacksTarget, Restored, SealsAll, StopsRestoring};

use crate::Status;
use cook_bits::{Name, NoMemory};
use cook_restore::{FileError, PackageWhy, Restorer, open_package};
use shelf_core::{Entry, Shelf};
use std::alloc::Global;

/// What was restored: how many files, and how many bytes they have.
#[derive(Clone, Copy, Debug, PartialEq, Eq)]
pub struct RestoreSum {
    pub files: u64,
    pub bytes: u128,
}

// The place of the first entry in byte order of names.
fn first_place(entries: &[Entry]) -> usize
    requires { 0 < length entries.now }
    ensures { IsFirstPlace entries.now result }
{
    let mut first = 0;
    for index in 1..entries.len() {
        if entries[index].name < entries[first].name {
            first = index;
        }
    }
    first
}

// The first name of entries in byte order.
fn first_name(mut entries: Vec<Entry>) -> Option<Name>
    ensures { FirstName entries.items result }
{
    if entries.is_empty() {
        return None;
    }
    let first = first_place(entries.as_slice());
    let Entry { name, .. } = entries.swap_remove(first);
    Some(name)
}

// Makes the target, in which nothing may stand.
fn make_target<S: Shelf>(shelf: &mut S, dir: &str) -> Result<(), Status>
    ensures empty { OnOk result (IsEmptyRoot S.Shelf shelf.old dir.now) }
    ensures stopped { IfErr result (LacksTarget S.Shelf shelf.old shelf.new dir.now) }
    ensures kept { OnlyReads S.Shelf shelf.old shelf.new }
{
    shelf.make_folder(dir)?;
    let entries = shelf.list(dir)?;
    match first_name(entries) {
        None => Ok(()),
        Some(name) => Err(Status::InTheWay { name }),
    }
}

// The status that shows why a file was not given.
fn not_given(alloc: Global, restorer: Restorer, pkg: &str, error: FileError) -> Status
    requires numbered { IsNumbered restorer error }
    ensures { IsStatusOf restorer pkg.now error result }
{
    match error {
        FileError::File { number, why } => {
            let name = restorer.into_name(number);
            Status::PackageRefused {
                why: PackageWhy::File { name, why },
            }
        }
        FileError::InTheWay { number } => {
            let name = restorer.into_name(number);
            Status::InTheWay { name }
        }
        FileError::Changed { was, now } => match Name::copy(alloc, pkg) {
            Ok(name) => Status::Changed { name, was, now },
            Err(NoMemory) => Status::NoMemory,
        },
        FileError::Failed => Status::ShelfFault,
        FileError::NoMemory => Status::NoMemory,
    }
}

// The sum with one file more. Fewer than 2^32 files of fewer than 2^64 bytes add up to no more than fits.
fn with_one_more(sum: RestoreSum, length: u64) -> RestoreSum
    requires few { sum.files < 2 ^ 32 }
    requires small { sum.bytes ≤ sum.files * 2 ^ 64 }
    ensures files { result.files ≡ sum.files + 1 }
    ensures bytes { result.bytes ≡ sum.bytes + length }
    ensures small { result.bytes ≤ result.files * 2 ^ 64 }
{
    RestoreSum {
        files: sum.files + 1,
        bytes: sum.bytes + u128::from(length),
    }
}

// Gives the files of a package into a target that is empty, up to the first that is not given.
fn restore_files<S: Shelf>(
    alloc: Global,
    shelf: &mut S,
    workers: u32,
    pkg: &str,
    dir: &str,
) -> Result<RestoreSum, Status>
    requires workers { (1 ≤ workers) × (workers ≤ 64) }
    requires empty { IsEmptyRoot S.Shelf shelf.old dir.now }
    ensures done { IfOk result (λ _. Restored S.Shelf shelf.old shelf.new pkg.now dir.now None) }
    ensures sum { IfOk result (CountsFiles S.Shelf shelf.old pkg.now) }
    ensures stopped { IfErr result (StopsRestoring S.Shelf shelf.old shelf.new pkg.now dir.now) }
    ensures undone { IfErr result IsUndone }
    ensures sealed { OnOk result (SealsAll S.Shelf shelf.old shelf.new) }
    ensures unsealed { IfErr result (KeepsSealed S.Shelf shelf.old shelf.new) }
    ensures cause { (sink sink_now : ℕ) → IfErr result (ShowsFor S.Shelf (Some (OrderRestore workers pkg.now dir.now)) shelf.old shelf.new sink sink_now) }
    ensures counts { CountsStay S.Shelf shelf.old shelf.new }
{
    let mut restorer = open_package(alloc, shelf, pkg, Some(dir), workers)?;
    let mut sum = RestoreSum { files: 0, bytes: 0 };
    loop {
        match restorer.next_file(alloc, shelf) {
            Ok(Some(file)) => sum = with_one_more(sum, file.length),
            Ok(None) => return Ok(sum),
            Err(error) => return Err(not_given(alloc, restorer, pkg, error)),
        }
    }
}

/// Restores the package into the folder `dir`, which is made, and in which nothing may stand. The folder stays, whatever
/// follows.
pub fn restore_package<S: Shelf>(
    alloc: Global,
    shelf: &mut S,
    workers: u32,
    pkg: &str,
    dir: &str,
) -> Result<RestoreSum, Status>
    requires workers { (1 ≤ workers) × (workers ≤ 64) }
    ensures done { IfOk result (λ _. Restored S.Shelf shelf.old shelf.new pkg.now dir.now None) }
    ensures sum { IfOk result (CountsFiles S.Shelf shelf.old pkg.now) }
    ensures stopped { IfErr result (StopsRestoring S.Shelf shelf.old shelf.new pkg.now dir.now) }
    ensures undone { IfErr result IsUndone }
    ensures sealed { OnOk result (SealsAll S.Shelf shelf.old shelf.new) }
    ensures unsealed { IfErr result (KeepsSealed S.Shelf shelf.old shelf.new) }
    ensures cause { (sink sink_now : ℕ) → IfErr result (ShowsFor S.Shelf (Some (OrderRestore workers pkg.now dir.now)) shelf.old shelf.new sink sink_now) }
    ensures counts { CountsStay S.Shelf shelf.old shelf.new }
{
    make_target(shelf, dir)?;
    restore_files(alloc, shelf, workers, pkg, dir)
}

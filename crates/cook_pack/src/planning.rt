// The plan of a directory: its entries in byte order of names, each asked for its length and tried by the rules.
ghost use Rattle.std.specs.Prelude.{◌≡◌, ◌^◌, ◌<◌, ◌≤◌, length, IfOk, IfErr, IsTrue};
ghost use Rattle.std.specs.List.Sorted.{IsPermutation};
ghost use Rattle.shelf_core.specs.Reads.{Caused, OnlyReads};
ghost use Rattle.cook_pack.specs.Planned.{IsPlanOf, IsNotPlanned};
ghost use Rattle.cook_pack.specs.Entries.{Admits, AreInOrder, IsBarred, Lists, Misses, NamesEntry, Refuses, planned};

use crate::offence::{fault_by_file, fault_by_listing};
use crate::{PackError, Plan, PlannedFile, PlannedKind, RefuseWhy};
use cook_bits::{Name, NoMemory, full_name};
use shelf_core::{Entry, Shelf, ShelfError};
use std::alloc::Global;

// Whether entries stand in byte order of names.
fn is_in_order(entries: &[Entry]) -> bool
    ensures order { IsTrue result → AreInOrder entries.now }
    ensures other { AreInOrder entries.now → IsTrue result }
{
    entries.is_sorted_by(|entry, other| entry.name <= other.name)
}

// Puts entries in byte order of names, unless they stand so. None is lost, and none comes in.
fn put_in_order(entries: &mut Vec<Entry>)
    ensures order { AreInOrder entries.new.items }
    ensures same { IsPermutation entries.old.items entries.new.items }
    ensures kept { AreInOrder entries.old.items → entries.new.items ≡ entries.old.items }
{
    if !is_in_order(entries.as_slice()) {
        entries.sort_unstable_by(|entry, other| entry.name.cmp(&other.name));
    }
}

// Lists what stands under a root, in byte order of names.
fn listing<S: Shelf>(shelf: &mut S, root: &str) -> Result<Vec<Entry>, ShelfError>
    ensures listed { IfOk result (λ entries. Lists S.Shelf shelf.old root.now entries.items) }
    ensures order { IfOk result (λ entries. AreInOrder entries.items) }
    ensures only { OnlyReads S.Shelf shelf.old shelf.new }
    ensures cause { Caused S.Shelf ShelfError.Failed ShelfError.NoMemory shelf.old shelf.new result }
{
    let mut entries = shelf.list(root)?;
    put_in_order(&mut entries);
    Ok(entries)
}

fn refused(alloc: Global, name: &str, why: RefuseWhy) -> PackError
    ensures { Refuses name.now why result }
{
    match Name::copy(alloc, name) {
        Ok(name) => PackError::Refused { name, why },
        Err(NoMemory) => PackError::NoMemory,
    }
}

fn missing(alloc: Global, name: &str) -> PackError
    ensures { Misses name.now result }
{
    match Name::copy(alloc, name) {
        Ok(name) => PackError::Missing { name },
        Err(NoMemory) => PackError::NoMemory,
    }
}

// What is planned of the entry at a place, where files of `total` bytes stand before it and it breaks no rule.
fn admitted_file<S: Shelf>(
    alloc: Global,
    shelf: &mut S,
    root: &str,
    entries: &[Entry],
    index: usize,
    total: u64,
) -> Result<PlannedFile, PackError>
    requires order { AreInOrder entries.now }
    requires inside { index < length entries.now }
    requires small { total ≤ 2 ^ 50 }
    ensures admitted { IfOk result (Admits S.Shelf shelf.old root.now entries.now index total) }
    ensures barred { IfErr result (IsBarred S.Shelf shelf.old shelf.new root.now entries.now index total) }
    ensures only { OnlyReads S.Shelf shelf.old shelf.new }
{
    let name = entries[index].name.as_str();
    if let Some(why) = fault_by_listing(entries, index) {
        return Err(refused(alloc, name, why));
    }
    let full = full_name(alloc, root, name)?;
    let Some(length) = shelf.len(full.as_str())? else {
        return Err(missing(alloc, name));
    };
    if let Some(why) = fault_by_file(total, name, length) {
        return Err(refused(alloc, name, why));
    }
    Ok(PlannedFile {
        name: Name::copy(alloc, name)?,
        length,
        kind: PlannedKind::Other,
    })
}

// What is planned of all entries, where none breaks a rule.
fn admitted_files<S: Shelf>(
    alloc: Global,
    shelf: &mut S,
    root: &str,
    entries: &[Entry],
) -> Result<Vec<PlannedFile>, PackError>
    requires order { AreInOrder entries.now }
    requires listed { Lists S.Shelf shelf.old root.now entries.now }
    ensures planned { IfOk result (λ files. IsPlanOf S.Shelf shelf.old root.now (planned root.now files.items)) }
    ensures stopped { IfErr result (IsNotPlanned S.Shelf shelf.old shelf.new root.now) }
    ensures missing { IfErr result (NamesEntry entries.now) }
    ensures only { OnlyReads S.Shelf shelf.old shelf.new }
{
    let mut files = Vec::new(alloc);
    let mut total = 0;
    for index in 0..entries.len() {
        let file = admitted_file(alloc, shelf, root, entries, index, total)?;
        total += file.length;
        files.push(file)?;
    }
    Ok(files)
}

/// Plans the packing of what stands under `dir`: lists it, and asks the length of each file.
///
/// The answer is `Refused` for the first entry in byte order of names that breaks a rule, with the first rule that it
/// breaks; `Missing` for a listed file that isn't there; `Failed` where the shelf failed.
pub fn plan<S: Shelf>(alloc: Global, shelf: &mut S, dir: &str) -> Result<Plan, PackError>
    ensures planned { IfOk result (IsPlanOf S.Shelf shelf.old dir.now) }
    ensures stopped { IfErr result (IsNotPlanned S.Shelf shelf.old shelf.new dir.now) }
    ensures only { OnlyReads S.Shelf shelf.old shelf.new }
{
    let entries = listing(shelf, dir)?;
    let files = admitted_files(alloc, shelf, dir, &entries)?;
    let root = Name::copy(alloc, dir)?;
    Ok(Plan::new(root, files))
}

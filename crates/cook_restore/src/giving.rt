// A file is given back: its content is checked whole, then written in the target, and sealed.
ghost use Rattle.std.specs.Prelude.{◌≡◌, ◌+◌, ◌<◌, ◌≤◌, ◌^◌, length, true, Some, IfOk, IfErr, OnOk, OnErr, IfSome};
ghost use Rattle.name_tree.specs.Held.{is_among};
ghost use Rattle.shelf_core.specs.Reads.{CountsStay, Has, Differ, IsUnsealed, OnlyReads};
ghost use Rattle.cook_restore.specs.Contents.{PlaceEndsBy};
ghost use Rattle.cook_restore.specs.Giving.{AddsContent, IsChecked, IsHeld, NotChecked, NotAdded, NotWritten, WritesContent, IsContentGiven, NotGiven, asked_of};

use crate::FileWhy;
use crate::contents::Content;
use crate::folders::make_folders;
use crate::stop::Stop;
use cook_bits::full_name;
use name_tree::NameTree;
use reversal::FileRecord;
use shelf_core::Shelf;
use shelf_parts::{FilePart, copy_part, sum_part};
use std::alloc::Global;

/// The package from which files are given: its name, and its length in bytes.
#[derive(Clone, Copy, Debug)]
pub struct Package<'a> {
    pub name: &'a str,
    pub len: u64,
}

/// A file that is to be given.
#[derive(Clone, Copy, Debug)]
pub struct Task<'a> {
    /// What the side data says of it.
    pub said: &'a FileRecord,
    /// Where its content stands in the package, if it is attached.
    pub content: Option<Content>,
    /// The root under which it is to stand, if it is to be written.
    pub target: Option<&'a str>,
}

// Checks the content of a file: it is attached, and of the length and the sum that its record says. One that fits the
// buffer is left at its front.
fn checked_content<S: Shelf>(
    shelf: &mut S,
    pkg: Package<'_>,
    task: Task<'_>,
    buffer: &mut [u8],
) -> Result<Content, Stop>
    requires there { Has S.Shelf shelf.old pkg.name.now }
    requires ends { IfSome task.content (PlaceEndsBy pkg.len) }
    requires room { 0 < length buffer.old }
    ensures same { IfOk result (λ found. task.entry.content ≡ Some found) }
    ensures checked { IfOk result (IsChecked S.Shelf shelf.old pkg.entry.name.now task.entry.said.now) }
    ensures held { IfOk result (λ found. IsHeld S.Shelf shelf.old pkg.entry.name.now found buffer.new) }
    ensures stopped { IfErr result (NotChecked S.Shelf shelf.old shelf.new (asked_of pkg.entry task.entry)) }
    ensures kept { OnlyReads S.Shelf shelf.old shelf.new }
{
    let Some(content) = task.content else {
        return Err(Stop::File(FileWhy::Missing));
    };
    if content.len != task.said.length {
        return Err(Stop::File(FileWhy::Length));
    }
    let part = FilePart {
        name: pkg.name,
        at: content.at,
        len: content.len,
    };
    match sum_part(shelf, part, buffer) {
        Ok(sum) if sum == task.said.md5 => Ok(content),
        Ok(_) => Err(Stop::File(FileWhy::Sum)),
        Err(error) => Err(Stop::of_piece(pkg.len, error)),
    }
}

// Adds a checked content to the end of a file: from the buffer where it is held there, and else by reading it again. Other
// bytes at this second reading are a fault of the file.
#[tactic(auto, using(shelf_core::specs::FileLaws::file_laws))]
fn add_content<S: Shelf>(
    shelf: &mut S,
    pkg: Package<'_>,
    said: &FileRecord,
    content: Content,
    to: &str,
    buffer: &mut [u8],
) -> Result<(), Stop>
    requires there { Has S.Shelf shelf.old pkg.name.now }
    requires to_there { Has S.Shelf shelf.old to.now }
    requires open { IsUnsealed S.Shelf shelf.old to.now }
    requires apart { Differ S.Shelf shelf.old pkg.name.now to.now }
    requires ends { PlaceEndsBy pkg.len content }
    requires checked { IsChecked S.Shelf shelf.old pkg.name.now said.now content }
    requires held { IsHeld S.Shelf shelf.old pkg.name.now content buffer.old }
    requires room { 0 < length buffer.old }
    ensures added { OnOk result (AddsContent S.Shelf shelf.old shelf.new pkg.entry.name.now content to.now) }
    ensures stopped { IfErr result (NotAdded S.Shelf shelf.old shelf.new pkg.entry.name.now content to.now) }
{
    if content.len <= buffer.len() as u64 {
        shelf.append(to, &buffer[..content.len as usize])?;
        return Ok(());
    }
    let part = FilePart {
        name: pkg.name,
        at: content.at,
        len: content.len,
    };
    match copy_part(shelf, part, to, buffer) {
        Ok(sum) if sum == said.md5 => Ok(()),
        Ok(_) => Err(Stop::File(FileWhy::Sum)),
        Err(error) => Err(Stop::of_piece(pkg.len, error)),
    }
}

// Writes a checked content as a new file, and seals it.
#[tactic(auto, using(shelf_core::specs::FileLaws::file_laws))]
fn write_content<S: Shelf>(
    shelf: &mut S,
    pkg: Package<'_>,
    said: &FileRecord,
    content: Content,
    to: &str,
    buffer: &mut [u8],
) -> Result<(), Stop>
    requires there { Has S.Shelf shelf.old pkg.name.now }
    requires ends { PlaceEndsBy pkg.len content }
    requires checked { IsChecked S.Shelf shelf.old pkg.name.now said.now content }
    requires held { IsHeld S.Shelf shelf.old pkg.name.now content buffer.old }
    requires room { 0 < length buffer.old }
    ensures written { OnOk result (WritesContent S.Shelf shelf.old shelf.new pkg.entry.name.now content to.now) }
    ensures stopped { IfErr result (NotWritten S.Shelf shelf.old shelf.new pkg.entry.name.now content to.now) }
    ensures counts { CountsStay S.Shelf shelf.old shelf.new }
{
    shelf.create(to)?;
    add_content(shelf, pkg, said, content, to, buffer)?;
    shelf.seal(to)?;
    Ok(())
}

/// Gives a file: checks its content whole, then makes those of its folders that were not made before, writes it under the
/// target, if there is one, and seals it. Answers the length of the content in bytes.
pub fn give<S: Shelf>(
    alloc: Global,
    shelf: &mut S,
    pkg: Package<'_>,
    task: Task<'_>,
    names: &mut NameTree,
    buffer: &mut [u8],
) -> Result<u64, Stop>
    requires there { Has S.Shelf shelf.old pkg.name.now }
    requires listed { is_among names.old.names task.said.now.name ≡ true }
    requires ends { IfSome task.content (PlaceEndsBy pkg.len) }
    requires room { 0 < length buffer.old }
    ensures given { IfOk result (IsContentGiven S.Shelf shelf.old shelf.new (asked_of pkg.entry task.entry)) }
    ensures stopped { IfErr result (NotGiven S.Shelf shelf.old shelf.new (asked_of pkg.entry task.entry)) }
    ensures counts { CountsStay S.Shelf shelf.old shelf.new }
    ensures names { names.new.names ≡ names.old.names }
{
    let content = checked_content(shelf, pkg, task, buffer)?;
    if let Some(dir) = task.target {
        let name = task.said.name.as_str();
        let full = full_name(alloc, dir, name)?;
        make_folders(shelf, names, name, full.as_str())?;
        write_content(shelf, pkg, task.said, content, full.as_str(), buffer)?;
    }
    Ok(content.len)
}

// The names of all files, and the folders that are made for them.
ghost use Rattle.std.specs.Prelude.{◌≡◌, true, None, length, IfOk, OnOk};
ghost use Rattle.name_tree.specs.Held.{is_among, folder_left};
ghost use Rattle.shelf_core.specs.Reads.{OnlyReads, Caused};
ghost use Rattle.reversal.specs.SideData.{AreNames, names_of};

use cook_bits::NoMemory;
use name_tree::laws::names_are_taken;
use name_tree::{NameError, NameTree};
use reversal::FileRecord;
use shelf_core::{Shelf, ShelfError};
use std::alloc::Global;

/// A tree of the records' names, none of whose folders was made.
pub fn tree_of(alloc: Global, records: &[FileRecord]) -> Result<NameTree, NoMemory>
    requires { AreNames (names_of records.now) }
    ensures { IfOk result (λ names. names.names ≡ names_of records.now) }
{
    names_are_taken();
    let mut names = NameTree::new(alloc);
    for said in records {
        match names.insert(said.name.as_str()) {
            Ok(()) => {}
            Err(why) => match why {
                NameError::NoMemory => return Err(NoMemory),
                _ => unreachable!(),
            },
        }
    }
    Ok(names)
}

/// Makes the folders of a held name that were not made before, the shorter first. The full name of its file ends with it.
pub fn make_folders<S: Shelf>(
    shelf: &mut S,
    names: &mut NameTree,
    name: &str,
    full: &str,
) -> Result<(), ShelfError>
    requires held { is_among names.old.names name.now ≡ true }
    ensures kept { OnlyReads S.Shelf shelf.old shelf.new }
    ensures cause { Caused S.Shelf ShelfError.Failed ShelfError.NoMemory shelf.old shelf.new result }
    ensures made { OnOk result (folder_left names.new.given name.now ≡ None) }
    ensures names { names.new.names ≡ names.old.names }
{
    let start = full.len().saturating_sub(name.len());
    'left: while let Some(len) = names.next_folder(name) {
        if let Some(folder) = full.get(..start.saturating_add(len)) {
            shelf.make_folder(folder)?;
        }
    }
    Ok(())
}

// Files on a shelf in memory.

ghost use Rattle.std.specs.Prelude.{OnOk};
ghost use Rattle.shelf_core.specs.Reads.{Has, IsUnsealed};

use crate::stop::Stop;
use cook_bits::{Bytes, Name};
use shelf_core::{CalmShelf, CreateError, Shelf};
use std::alloc::Global;

/// The name of a package.
pub const PACKAGE: &str = "p";

/// The root of a directory.
pub const ROOT: &str = "d";

// Creates a file, which is then open for writing.
#[tactic(auto, using(crate::proofs::ShelfLaws::created_is_unsealed))]
fn create<S: Shelf>(shelf: &mut S, name: &str) -> Result<(), Stop>
    ensures { OnOk result (IsUnsealed S.Shelf shelf.new name.now) }
{
    match shelf.create(name) {
        Ok(()) => Ok(()),
        Err(CreateError::NoMemory) => Err(Stop::NoMemory),
        Err(_) => Err(Stop::OutOfRange),
    }
}

/// Puts a file on a shelf that has none of its name.
pub fn put<S: Shelf>(shelf: &mut S, name: &str, content: &[u8]) -> Result<(), Stop> {
    create(shelf, name)?;
    shelf.append(name, content)?;
    shelf.seal(name)?;
    Ok(())
}

/// A shelf that has a package of these bytes and no other file.
pub fn shelf_of(alloc: Global, package: &[u8]) -> Result<CalmShelf, Stop> {
    let mut shelf = CalmShelf::new(alloc, Vec::new(alloc));
    put(&mut shelf, PACKAGE, package)?;
    Ok(shelf)
}

/// The length of a file that is there.
pub fn len_of<S: Shelf>(shelf: &mut S, name: &str) -> Result<u64, Stop>
    ensures { OnOk result (Has S.Shelf shelf.new name.now) }
{
    match shelf.len(name)? {
        Some(len) => Ok(len),
        None => Err(Stop::OutOfRange),
    }
}

/// The bytes of a file, where it is there.
pub fn content_of<'a>(files: &'a [(Name, Bytes)], name: &str) -> Option<&'a [u8]> {
    let (_, content) = files.iter().find(|file| file.0.as_str() == name)?;
    Some(content.as_slice())
}

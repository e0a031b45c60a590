ghost use Rattle.std.specs.Prelude.{◌≡◌, ◌≤◌, [], length, Some, IfOk, OnOk, OnErr};
ghost use Rattle.shelf_core.specs.Store.{IsAscending, told_of};

use crate::store::Store;
use crate::{CreateError, Entry, Shelf, ShelfError};
use cook_bits::{Bytes, Name};
use std::alloc::Global;

/// A shelf in memory that tells its files and never fails.
///
/// Its count of faults is 0, whatever was called, so no call of it answers `Failed`.
#[derive(Drop)]
pub struct CalmShelf {
    store: Store,
}

impl CalmShelf {
    /// Holds files whose names rise byte by byte, none of them unsealed. It takes no memory.
    pub fn new(alloc: Global, files: Vec<(Name, Bytes)>) -> CalmShelf
        requires { IsAscending files.items }
        ensures files { ⟦<CalmShelf as Shelf>⟧.files result ≡ told_of files.items }
        ensures unsealed { ⟦<CalmShelf as Shelf>⟧.unsealed result ≡ Some [] }
        ensures starved { ⟦<CalmShelf as Shelf>⟧.starved result ≡ 0 }
    {
        CalmShelf {
            store: Store::new(alloc, files),
        }
    }

    /// The files, in byte order of names.
    pub fn files(&self) -> &[(Name, Bytes)]
        ensures told { ⟦<CalmShelf as Shelf>⟧.files self.now ≡ told_of result.now }
        ensures ascending { IsAscending result.now }
    {
        self.store.files()
    }

    /// The names of the files that were created and not sealed since, in order of creation.
    pub fn unsealed(&self) -> &[Name]
        ensures { ⟦<CalmShelf as Shelf>⟧.unsealed self.now ≡ Some result.now }
    {
        self.store.unsealed()
    }
}

impl Shelf for CalmShelf {
    ghost use Rattle.std.specs.Prelude.{ℕ, List, Option};
    ghost use Rattle.shelf_core.specs.Causes.{HasCause};
    ghost use Rattle.shelf_core.specs.InMemory.{Lists, ReadsFrom};
    ghost use Rattle.shelf_core.specs.Told.{Files, IsTold, HasFile, IsFree, length_of, with_file, grown, GrewPartly, IsUnsealedIn, IsNotUnsealed, with_unsealed, without_unsealed};
    ghost use Rattle.shelf_core.specs.StoreOf.{told_files, told_unsealed};
    ghost use Rattle.shelf_core.specs.StoreTold.{unsealed-has, told-bytes, told-is_some};

    ghost files = { λ shelf. told_files shelf.store };

    ghost unsealed = { λ shelf. told_unsealed shelf.store };

    ghost faults = { λ shelf. 0 };

    ghost starved = { λ shelf. shelf.store.starved };

    fn list(&mut self, root: &str) -> Result<Vec<Entry>, ShelfError>
        ensures listed { IfOk result (λ entries. Lists self.old.store root.now entries.items) }
        ensures files { told_files self.new.store ≡ told_files self.old.store }
        ensures unsealed { told_unsealed self.new.store ≡ told_unsealed self.old.store }
        ensures cause { HasCause ShelfError.Failed ShelfError.NoMemory 0 0 self.old.store.starved self.new.store.starved result }
        ensures calm { result ≡ Err ShelfError.Failed → ⊥ }
    {
        self.store.list(root)
    }

    fn len(&mut self, name: &str) -> Result<Option<u64>, ShelfError>
        ensures length { IfOk result (λ len. IsTold (told_files self.old.store) → len ≡ length_of (told_files self.old.store) name.now) }
        ensures files { told_files self.new.store ≡ told_files self.old.store }
        ensures unsealed { told_unsealed self.new.store ≡ told_unsealed self.old.store }
        ensures cause { HasCause ShelfError.Failed ShelfError.NoMemory 0 0 self.old.store.starved self.new.store.starved result }
        ensures calm { result ≡ Err ShelfError.Failed → ⊥ }
    {
        Ok(self.store.len(name))
    }

    fn read_at(&mut self, name: &str, at: u64, buf: &mut [u8]) -> Result<usize, ShelfError>
        requires { HasFile (told_files self.old.store) name.now }
        ensures within { IfOk result (λ count. count ≤ length buf.old) }
        ensures read { IfOk result (ReadsFrom self.old.store name.now at (length buf.old) buf.new) }
        ensures files { told_files self.new.store ≡ told_files self.old.store }
        ensures unsealed { told_unsealed self.new.store ≡ told_unsealed self.old.store }
        ensures cause { HasCause ShelfError.Failed ShelfError.NoMemory 0 0 self.old.store.starved self.new.store.starved result }
        ensures calm { result ≡ Err ShelfError.Failed → ⊥ }
    {
        Ok(self.store.read_at(name, at, buf))
    }

    fn create(&mut self, name: &str) -> Result<(), CreateError>
        ensures free { OnOk result (IsFree (told_files self.old.store) name.now) }
        ensures not_unsealed { OnOk result (IsNotUnsealed (told_unsealed self.old.store) name.now) }
        ensures created { OnOk result (told_files self.new.store ≡ with_file (told_files self.old.store) name.now []) }
        ensures unsealed { OnOk result (told_unsealed self.new.store ≡ with_unsealed (told_unsealed self.old.store) name.now) }
        ensures exists { result ≡ Err CreateError.Exists → HasFile (told_files self.old.store) name.now }
        ensures in_the_way { HasFile (told_files self.old.store) name.now → result ≡ Err CreateError.Exists }
        ensures files_kept { OnErr result (told_files self.new.store ≡ told_files self.old.store) }
        ensures unsealed_kept { OnErr result (told_unsealed self.new.store ≡ told_unsealed self.old.store) }
        ensures cause { HasCause CreateError.Failed CreateError.NoMemory 0 0 self.old.store.starved self.new.store.starved result }
        ensures calm { result ≡ Err CreateError.Failed → ⊥ }
    {
        self.store.create(name)
    }

    /// It does nothing: a shelf in memory has no folders.
    fn make_folder(&mut self, name: &str) -> Result<(), ShelfError>
        ensures files { told_files self.new.store ≡ told_files self.old.store }
        ensures unsealed { told_unsealed self.new.store ≡ told_unsealed self.old.store }
        ensures cause { HasCause ShelfError.Failed ShelfError.NoMemory 0 0 self.old.store.starved self.new.store.starved result }
        ensures calm { result ≡ Err ShelfError.Failed → ⊥ }
    {
        let _ = name;
        Ok(())
    }

    fn append(&mut self, name: &str, bytes: &[u8]) -> Result<(), ShelfError>
        requires { IsUnsealedIn (told_unsealed self.old.store) name.now }
        ensures ok { OnOk result (told_files self.new.store ≡ grown (told_files self.old.store) name.now bytes.now) }
        ensures err { OnErr result (GrewPartly (told_files self.old.store) name.now bytes.now (told_files self.new.store)) }
        ensures unsealed { told_unsealed self.new.store ≡ told_unsealed self.old.store }
        ensures cause { HasCause ShelfError.Failed ShelfError.NoMemory 0 0 self.old.store.starved self.new.store.starved result }
        ensures calm { result ≡ Err ShelfError.Failed → ⊥ }
    {
        self.store.append(name, bytes)
    }

    fn seal(&mut self, name: &str) -> Result<(), ShelfError>
        requires { IsUnsealedIn (told_unsealed self.old.store) name.now }
        ensures files { told_files self.new.store ≡ told_files self.old.store }
        ensures sealed { OnOk result (told_unsealed self.new.store ≡ without_unsealed (told_unsealed self.old.store) name.now) }
        ensures unsealed_kept { OnErr result (told_unsealed self.new.store ≡ told_unsealed self.old.store) }
        ensures cause { HasCause ShelfError.Failed ShelfError.NoMemory 0 0 self.old.store.starved self.new.store.starved result }
        ensures calm { result ≡ Err ShelfError.Failed → ⊥ }
    {
        self.store.seal(name);
        Ok(())
    }

    ghost told_together = { λ shelf. told-is_some shelf.store.files.items };

    ghost contents_are_bytes = { λ shelf. told-bytes _ shelf.store.ascending shelf.store.bytes };

    ghost unsealed_is_there = { λ shelf name told unsealed. unsealed-has _ _ _ shelf.store.ascending shelf.store.there unsealed };
}

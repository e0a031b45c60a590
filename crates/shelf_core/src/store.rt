ghost use Rattle.std.specs.Prelude.{◌≡◌, [], length, Some, OnOk, OnErr, IfOk};
ghost use Rattle.std.proofs.Props.{props};
ghost use Rattle.shelf_core.specs.Causes.{HasCause};
ghost use Rattle.shelf_core.specs.Listing.{plain_entries};
ghost use Rattle.shelf_core.specs.Told.{HasFile, IsFree, IsNotUnsealed, IsUnsealedIn, IsRead, GrewPartly, content, length_of, under, with_file, with_unsealed, without_unsealed, grown};
ghost use Rattle.shelf_core.specs.Store.{IsAscending, AreOfBytes, AreThere, told_of};

use crate::calls::one_more;
use crate::files::{add_file, append_to, bytes_of, drop_name, entries_under, hold_bytes};
use crate::{CreateError, Entry, ShelfError};
use cook_bits::{Bytes, Name};
use std::alloc::Global;

/// The files of a shelf in memory, those of them that are being written, and how often a growth was refused.
///
/// Its calls are those of a shelf that never fails.
#[derive(Drop)]
pub struct Store {
    alloc: Global,
    files: Vec<(Name, Bytes)>,
    unsealed: Vec<Name>,
    starved: u64,
    ghost ascending: { IsAscending files.items },
    ghost there: { AreThere unsealed.items files.items },
    ghost bytes: { AreOfBytes files.items } by { Prim.hlevel props },
}

impl Store {
    /// Holds files whose names rise. It takes no memory.
    #[tactic(auto, using(crate::proofs::StoreLaws::store_facts))]
    pub fn new(alloc: Global, files: Vec<(Name, Bytes)>) -> Store
        requires { IsAscending files.items }
        ensures files { result.files.items ≡ files.items }
        ensures unsealed { result.unsealed.items ≡ [] }
        ensures starved { result.starved ≡ 0 }
    {
        hold_bytes(files.as_slice());
        Store {
            alloc,
            files,
            unsealed: Vec::new(alloc),
            starved: 0,
        }
    }

    /// The files, by name.
    pub fn files(&self) -> &[(Name, Bytes)]
        ensures { result.now ≡ self.now.files.items }
    {
        self.files.as_slice()
    }

    /// The names of the files that were created and not sealed since, in order of creation.
    pub fn unsealed(&self) -> &[Name]
        ensures { result.now ≡ self.now.unsealed.items }
    {
        self.unsealed.as_slice()
    }

    /// Lists the files under a root.
    #[tactic(auto, using(crate::proofs::StoreLaws::store_facts))]
    pub fn list(&mut self, root: &str) -> Result<Vec<Entry>, ShelfError>
        ensures listed { IfOk result (λ entries. entries.items ≡ plain_entries (under (told_of self.old.files.items) root.now)) }
        ensures files { self.new.files.items ≡ self.old.files.items }
        ensures unsealed { self.new.unsealed.items ≡ self.old.unsealed.items }
        ensures cause { HasCause ShelfError.Failed ShelfError.NoMemory 0 0 self.old.starved self.new.starved result }
    {
        let listed = entries_under(self.alloc, self.files.as_slice(), root);
        if listed.is_err() {
            self.starved = one_more(self.starved);
        }
        Ok(listed?)
    }

    /// The length of a file in bytes.
    #[tactic(auto, using(crate::proofs::StoreLaws::store_facts))]
    pub fn len(&self, name: &str) -> Option<u64>
        ensures { result ≡ length_of (told_of self.now.files.items) name.now }
    {
        match bytes_of(self.files.as_slice(), name) {
            Some(bytes) => Some(bytes.len() as u64),
            None => None,
        }
    }

    /// Fills the buffer from a place of a file on, as far as the file goes, and answers the number of bytes.
    pub fn read_at(&self, name: &str, at: u64, buf: &mut [u8]) -> usize
        requires { HasFile (told_of self.now.files.items) name.now }
        ensures { IsRead (content (told_of self.now.files.items) name.now) at (length buf.old) buf.new result }
    {
        match bytes_of(self.files.as_slice(), name) {
            Some(bytes) => read_from(bytes, at, buf),
            None => 0,
        }
    }

    /// Adds an empty file. A refusal changes nothing but the count.
    #[tactic(auto, using(crate::proofs::StoreLaws::store_facts))]
    pub fn create(&mut self, name: &str) -> Result<(), CreateError>
        ensures free { OnOk result (IsFree (told_of self.old.files.items) name.now) }
        ensures not_unsealed { OnOk result (IsNotUnsealed (Some self.old.unsealed.items) name.now) }
        ensures created { OnOk result (told_of self.new.files.items ≡ with_file (told_of self.old.files.items) name.now []) }
        ensures unsealed { OnOk result (Some self.new.unsealed.items ≡ with_unsealed (Some self.old.unsealed.items) name.now) }
        ensures exists { result ≡ Err CreateError.Exists → HasFile (told_of self.old.files.items) name.now }
        ensures in_the_way { HasFile (told_of self.old.files.items) name.now → result ≡ Err CreateError.Exists }
        ensures files_kept { OnErr result (self.new.files.items ≡ self.old.files.items) }
        ensures unsealed_kept { OnErr result (self.new.unsealed.items ≡ self.old.unsealed.items) }
        ensures cause { HasCause CreateError.Failed CreateError.NoMemory 0 0 self.old.starved self.new.starved result }
    {
        let created = add_file(self.alloc, &mut self.files, &mut self.unsealed, name);
        if matches!(created, Err(CreateError::NoMemory)) {
            self.starved = one_more(self.starved);
        }
        created
    }

    /// Adds bytes at the end of an unsealed file. A refusal changes nothing but the count.
    #[tactic(auto, using(crate::proofs::StoreLaws::store_facts))]
    pub fn append(&mut self, name: &str, bytes: &[u8]) -> Result<(), ShelfError>
        requires { IsUnsealedIn (Some self.old.unsealed.items) name.now }
        ensures ok { OnOk result (told_of self.new.files.items ≡ grown (told_of self.old.files.items) name.now bytes.now) }
        ensures err { OnErr result (GrewPartly (told_of self.old.files.items) name.now bytes.now (told_of self.new.files.items)) }
        ensures unsealed { self.new.unsealed.items ≡ self.old.unsealed.items }
        ensures cause { HasCause ShelfError.Failed ShelfError.NoMemory 0 0 self.old.starved self.new.starved result }
    {
        let appended = append_to(&mut self.files, name, bytes);
        if appended.is_err() {
            self.starved = one_more(self.starved);
        }
        Ok(appended?)
    }

    /// Ends the writing of a file.
    #[tactic(auto, using(crate::proofs::StoreLaws::store_facts))]
    pub fn seal(&mut self, name: &str)
        ensures files { self.new.files.items ≡ self.old.files.items }
        ensures unsealed { Some self.new.unsealed.items ≡ without_unsealed (Some self.old.unsealed.items) name.now }
        ensures starved { self.new.starved ≡ self.old.starved }
    {
        drop_name(&mut self.unsealed, name);
    }
}

/// Fills a buffer from a place of some bytes on, as far as they go, and answers the number of bytes.
fn read_from(bytes: &[u8], at: u64, buf: &mut [u8]) -> usize
    ensures { IsRead bytes.now at (length buf.old) buf.new result }
{
    if at >= bytes.len() as u64 {
        return 0;
    }
    let rest = &bytes[at as usize..];
    let count = rest.len().min(buf.len());
    buf[..count].copy_from_slice(&rest[..count]);
    count
}

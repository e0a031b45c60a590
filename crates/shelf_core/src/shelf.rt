ghost use Rattle.std.specs.Prelude.{◌≡◌, ◌≤◌, ℕ, List, [], length, Option, IfOk, OnOk, OnErr, is_some};
ghost use Rattle.shelf_core.specs.Causes.{HasCause};
ghost use Rattle.shelf_core.specs.Listing.{plain_entries};
ghost use Rattle.shelf_core.specs.Told.{Files, IsTold, HasFile, HoldsBytes, IsFree, content, length_of, with_file, grown, under, GrewPartly, IsRead, IsUnsealedIn, IsNotUnsealed, with_unsealed, without_unsealed};

use cook_bits::{Name, Named};
use thiserror::Error;

/// One thing that a listing shows.
#[derive(Debug, Drop)]
pub struct Entry {
    /// The name relative to the listed root.
    pub name: Name,
    /// Whether it is a plain file.
    pub plain: bool,
}

impl Named for Entry {
    ghost name_of = { λ entry. entry.name };

    fn name(&self) -> &str {
        self.name.as_str()
    }
}

/// Why a call of a shelf was refused.
#[derive(Clone, Copy, Debug, PartialEq, Eq, Error)]
pub enum ShelfError {
    /// The shelf failed, and its count of faults rose.
    #[error("shelf fault")]
    Failed,
    /// No memory was left, and the count of refused growths rose.
    #[error("no memory")]
    NoMemory,
}

/// Why a file was not created.
#[derive(Clone, Copy, Debug, PartialEq, Eq, Error)]
pub enum CreateError {
    /// The name is there already.
    #[error("in the way")]
    Exists,
    /// The shelf failed, and its count of faults rose.
    #[error("shelf fault")]
    Failed,
    /// No memory was left, and the count of refused growths rose.
    #[error("no memory")]
    NoMemory,
}

/// A place that keeps files: a disk, or a list in memory.
///
/// A shelf may tell its files, as a shelf in memory does. The clauses on content speak where it tells them; the others
/// hold for every shelf.
pub trait Shelf {
    /// The files by full name, where they are told.
    ghost files: { Self → Option Files };

    /// The names of the files that were created and not sealed since, in order of creation. Told where the files are.
    ghost unsealed: { Self → Option (List (List ℕ)) };

    /// How often the shelf failed. It never falls.
    ghost faults: { Self → ℕ };

    /// How often a growth was refused. It never falls.
    ghost starved: { Self → ℕ };

    /// Lists what stands under a root, in folders too. Where the files are told, each is listed once, plain, in byte
    /// order of names; else in any order, and what is neither a plain file nor a folder with `plain` false.
    fn list(&mut self, root: &str) -> Result<Vec<Entry>, ShelfError>
        ensures listed { IfOk result (λ entries. IsTold (files self.old) → entries.items ≡ plain_entries (under (files self.old) root.now)) }
        ensures files { files self.new ≡ files self.old }
        ensures unsealed { unsealed self.new ≡ unsealed self.old }
        ensures cause { HasCause ShelfError.Failed ShelfError.NoMemory (faults self.old) (faults self.new) (starved self.old) (starved self.new) result };

    /// The length of a file in bytes. Where the files are told, `None` comes exactly where there is no such file.
    fn len(&mut self, name: &str) -> Result<Option<u64>, ShelfError>
        ensures length { IfOk result (λ len. IsTold (files self.old) → len ≡ length_of (files self.old) name.now) }
        ensures files { files self.new ≡ files self.old }
        ensures unsealed { unsealed self.new ≡ unsealed self.old }
        ensures cause { HasCause ShelfError.Failed ShelfError.NoMemory (faults self.old) (faults self.new) (starved self.old) (starved self.new) result };

    /// Fills the buffer from place `at` of a file on, and answers the number of bytes read: fewer than there is room for
    /// only where the file ends. After a refusal the buffer is free.
    fn read_at(&mut self, name: &str, at: u64, buf: &mut [u8]) -> Result<usize, ShelfError>
        requires { HasFile (files self.old) name.now }
        ensures within { IfOk result (λ count. count ≤ length buf.old) }
        ensures read { IfOk result (λ count. IsTold (files self.old) → IsRead (content (files self.old) name.now) at (length buf.old) buf.new count) }
        ensures files { files self.new ≡ files self.old }
        ensures unsealed { unsealed self.new ≡ unsealed self.old }
        ensures cause { HasCause ShelfError.Failed ShelfError.NoMemory (faults self.old) (faults self.new) (starved self.old) (starved self.new) result };

    /// Makes an empty file, which is then open for `append`. `Exists` comes only where the name is there; a refusal
    /// changes nothing.
    fn create(&mut self, name: &str) -> Result<(), CreateError>
        ensures free { OnOk result (IsFree (files self.old) name.now) }
        ensures not_unsealed { OnOk result (IsNotUnsealed (unsealed self.old) name.now) }
        ensures created { OnOk result (files self.new ≡ with_file (files self.old) name.now []) }
        ensures unsealed { OnOk result (unsealed self.new ≡ with_unsealed (unsealed self.old) name.now) }
        ensures exists { result ≡ Err CreateError.Exists → HasFile (files self.old) name.now }
        ensures files_kept { OnErr result (files self.new ≡ files self.old) }
        ensures unsealed_kept { OnErr result (unsealed self.new ≡ unsealed self.old) }
        ensures cause { HasCause CreateError.Failed CreateError.NoMemory (faults self.old) (faults self.new) (starved self.old) (starved self.new) result };

    /// Makes a folder and those above it. A folder that is there is no fault.
    fn make_folder(&mut self, name: &str) -> Result<(), ShelfError>
        ensures files { files self.new ≡ files self.old }
        ensures unsealed { unsealed self.new ≡ unsealed self.old }
        ensures cause { HasCause ShelfError.Failed ShelfError.NoMemory (faults self.old) (faults self.new) (starved self.old) (starved self.new) result };

    /// Adds bytes at the end of a file that was created and not sealed. After a refusal the first of them may have been added.
    fn append(&mut self, name: &str, bytes: &[u8]) -> Result<(), ShelfError>
        requires { IsUnsealedIn (unsealed self.old) name.now }
        ensures ok { OnOk result (files self.new ≡ grown (files self.old) name.now bytes.now) }
        ensures err { OnErr result (GrewPartly (files self.old) name.now bytes.now (files self.new)) }
        ensures unsealed { unsealed self.new ≡ unsealed self.old }
        ensures cause { HasCause ShelfError.Failed ShelfError.NoMemory (faults self.old) (faults self.new) (starved self.old) (starved self.new) result };

    /// Ends the writing of a file.
    fn seal(&mut self, name: &str) -> Result<(), ShelfError>
        requires { IsUnsealedIn (unsealed self.old) name.now }
        ensures files { files self.new ≡ files self.old }
        ensures sealed { OnOk result (unsealed self.new ≡ without_unsealed (unsealed self.old) name.now) }
        ensures unsealed_kept { OnErr result (unsealed self.new ≡ unsealed self.old) }
        ensures cause { HasCause ShelfError.Failed ShelfError.NoMemory (faults self.old) (faults self.new) (starved self.old) (starved self.new) result };

    /// The unsealed files are told exactly where the files are.
    ghost told_together: { (shelf : Self) → is_some (files shelf) ≡ is_some (unsealed shelf) };

    /// The contents of its files are bytes.
    ghost contents_are_bytes: { (shelf : Self) → HoldsBytes (files shelf) };

    /// Each unsealed file is one of the files.
    ghost unsealed_is_there: { (shelf : Self) (name : List ℕ) → IsTold (files shelf) → IsUnsealedIn (unsealed shelf) name → HasFile (files shelf) name };
}

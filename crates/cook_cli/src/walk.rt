//! The listing of a real folder.
ghost use Rattle.std.specs.Prelude.{◌≡◌, ◌≢◌, ◌+◌, ◌≤◌, [], ◌∷◌, ◌++◌, IfOk, IfErr, OnOk, string_bytes, vec_len};
ghost use Rattle.std.specs.Fs.{IsDir};
ghost use Rattle.std.specs.IoError.{error_kind};
ghost use Rattle.cook_cli.specs.Walking.{IsListedLast, name_below};

use crate::fault::Fault;
use cook_bits::Name;
use shelf_core::Entry;
use std::alloc::{AllocError, Global};
use std::fs::{self, DirEntry, FileType, Files};
use std::io::{self, ErrorKind, Read};

/// How many things a listing goes through at most, folders among them.
const MOST_THINGS: u32 = 4_000_000;

/// How many bytes of names are read from a folder at once. A single name has fewer.
const NAMES_LEN: usize = 4_096;

/// A listing on its way.
#[derive(Drop)]
struct Walk {
    /// How many more things may be met.
    left: u32,
    /// The folders that are still to be gone through, by their names below the root.
    folders: Vec<String>,
    /// What was met and is no folder.
    entries: Vec<Entry>,
}

/// Lists what stands under a root, in folders too, without following a link below it. A folder that can't be read, a
/// name that isn't UTF-8 and more than 4,000,000 things are errors, each told of the folder or the thing at which it came.
pub(crate) fn list(system: &HostRuntime, root: &str) -> Result<Vec<Entry>, Fault> {
    let alloc = system.alloc();
    let mut walk = Walk {
        left: MOST_THINGS,
        folders: vec![in alloc; String::new(alloc)]?,
        entries: Vec::new(alloc),
    };
    while let Some(folder) = walk.folders.pop() {
        walk.go_through(system, root, folder.as_str())?;
    }
    Ok(walk.entries)
}

impl Walk {
    /// Meets each thing that stands right in a folder.
    fn go_through(&mut self, system: &HostRuntime, root: &str, folder: &str) -> Result<(), Fault>
        ensures { OnOk result (self.new.left + vec_len self.new.folders ≤ self.old.left + vec_len self.old.folders) }
    {
        let alloc = system.alloc();
        let path = format!(in alloc; "{root}/{folder}")?;
        let things = match fs::read_dir(system, path.as_str()) {
            Ok(things) => things,
            Err(error) => return Err(Fault::at(alloc, shown(path.as_str()), error)),
        };
        for found in things {
            match found {
                Ok(found) => self.meet_found(alloc, folder, &found)?,
                Err(error) => return Err(unread(system, path.as_str(), error)),
            }
        }
        Ok(())
    }

    /// Meets a thing that a folder shows.
    fn meet_found(&mut self, alloc: Global, folder: &str, found: &DirEntry) -> Result<(), Fault>
        ensures { OnOk result (self.new.left + vec_len self.new.folders ≤ self.old.left + vec_len self.old.folders) }
    {
        let name = below(alloc, folder, found.file_name())?;
        let met = match found.file_type() {
            Ok(kind) => self.meet(name, kind),
            Err(error) => Err(error),
        };
        match met {
            Ok(()) => Ok(()),
            Err(error) => Err(Fault::at(alloc, found.path().to_string_lossy(), error)),
        }
    }

    /// Notes one thing: a folder is to be gone through, and anything else is listed.
    fn meet(&mut self, name: String, kind: FileType) -> io::Result<()>
        ensures refused { IfErr result (λ error. error_kind error ≢ ErrorKind.OutOfMemory → self.old.left ≡ 0) }
        ensures folder { OnOk result (IsDir kind → self.new.folders.items ≡ self.old.folders.items ++ name ∷ []) }
        ensures entries_kept { OnOk result (IsDir kind → self.new.entries.items ≡ self.old.entries.items) }
        ensures entry { OnOk result ((IsDir kind → ⊥) → IsListedLast kind (string_bytes name) self.old.entries.items self.new.entries.items) }
        ensures folders_kept { OnOk result ((IsDir kind → ⊥) → self.new.folders.items ≡ self.old.folders.items) }
        ensures ends { OnOk result (self.new.left + vec_len self.new.folders ≤ self.old.left + vec_len self.old.folders) }
    {
        if self.left == 0 {
            return Err(ErrorKind::FileTooLarge.into());
        }
        self.left -= 1;
        if kind.is_dir() {
            self.folders.push(name)?;
        } else {
            let plain = kind.is_file();
            let name = Name::from_string(name);
            self.entries.push(Entry { name, plain })?;
        }
        Ok(())
    }
}

/// The name below the root of what stands in a folder.
fn below(alloc: Global, folder: &str, name: &str) -> Result<String, AllocError>
    ensures { IfOk result (λ full. string_bytes full ≡ name_below folder.now name.now) }
{
    if folder.is_empty() {
        String::from_str(alloc, name)
    } else {
        format!(in alloc; "{folder}/{name}")
    }
}

/// A folder's path without the slash at its end.
fn shown(path: &str) -> &str {
    match path.strip_suffix('/') {
        None | Some("") => path,
        Some(shorter) => shorter,
    }
}

/// Why the things in a folder can't be read on: it tells of the name that isn't UTF-8, where that is why, and else of the folder.
fn unread(system: &HostRuntime, path: &str, error: io::Error) -> Fault {
    if error.kind() == ErrorKind::InvalidFilename
        && let Ok(Some(name)) = foreign_name(system, path)
    {
        return Fault {
            name: Some(name),
            error,
        };
    }
    Fault::at(system.alloc(), shown(path), error)
}

/// The first thing in a folder whose name isn't UTF-8, with that name in escaped form.
fn foreign_name(system: &HostRuntime, path: &str) -> io::Result<Option<String>> {
    let alloc = system.alloc();
    let mut names = system.open_dir(path)?;
    let mut buffer = [0; NAMES_LEN];
    for _ in 0..u64::MAX {
        let count = names.read(&mut buffer)?;
        if count == 0 {
            return Ok(None);
        }
        if let Some(name) = first_foreign(&buffer[..count]) {
            let folder = shown(path);
            return Ok(Some(format!(in alloc; "{folder}/{}", name.escape_ascii())?));
        }
    }
    Ok(None)
}

/// The first of names, each ended by a NUL, that isn't UTF-8.
fn first_foreign(names: &[u8]) -> Option<&[u8]> {
    names
        .split(|byte| *byte == 0)
        .find(|name| str::from_utf8(name).is_err())
}

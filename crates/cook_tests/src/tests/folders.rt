ghost use Rattle.std.specs.Prelude.{◌≡◌, ◌≤◌, length};
ghost use Rattle.shelf_core.specs.Causes.{Rose};

use super::orders::{File, ends, is, package_of};
use cook_bits::{Name, NoMemory};
use shelf_core::{CreateError, Entry, Shelf, ShelfError};
use std::alloc::Global;
use std::test::Fail;

// A file that is held.
#[derive(Drop)]
struct Held {
    name: Name,
    bytes: Vec<u8>,
}

// A shelf that tells nothing. It makes a file only in a folder that was made, and notes the folders in the order in which
// they were made. The second reading from the place `fickle`, of whatever file, gives another first byte.
#[derive(Drop)]
struct Foldered {
    alloc: Global,
    files: Vec<Held>,
    folders: Vec<Name>,
    fickle: Option<u64>,
    readings: u32,
    faults: u64,
    starved: u64,
}

// Whether the file stands in the folder and in none below it.
fn stands_in(name: &str, folder: &str) -> bool {
    let rest = name
        .strip_prefix(folder)
        .and_then(|rest| rest.strip_prefix("/"));
    rest.is_some_and(|rest| !rest.contains('/'))
}

// Reads from a place on as many bytes as there are and as there is room for.
fn read_from(bytes: &[u8], at: u64, buf: &mut [u8]) -> usize
    ensures within { result ≤ length buf.old }
{
    if at >= bytes.len() as u64 {
        return 0;
    }
    let rest = &bytes[at as usize..];
    let count = rest.len().min(buf.len());
    buf[..count].copy_from_slice(&rest[..count]);
    count
}

impl Foldered {
    // The count of refused allocations rises.
    fn starve(&mut self) -> ShelfError
        ensures answer { result ≡ ShelfError.NoMemory }
        ensures rose { Rose self.old.starved self.new.starved }
        ensures kept { self.old.starved ≤ self.new.starved }
        ensures faults { self.new.faults ≡ self.old.faults }
    {
        self.starved = self.starved.saturating_add(1);
        ShelfError::NoMemory
    }

    // Holds a file.
    fn hold(&mut self, name: &str, bytes: &[u8]) -> Result<(), NoMemory>
        ensures faults { self.new.faults ≡ self.old.faults }
        ensures starved { self.new.starved ≡ self.old.starved }
    {
        let name = Name::copy(self.alloc, name)?;
        let bytes = Vec::from_slice(self.alloc, bytes)?;
        self.files.push(Held { name, bytes })?;
        Ok(())
    }

    // Adds bytes at the end of a file that is held.
    fn add(&mut self, name: &str, bytes: &[u8]) -> Result<(), NoMemory>
        ensures faults { self.new.faults ≡ self.old.faults }
        ensures starved { self.new.starved ≡ self.old.starved }
    {
        for file in self.files.iter_mut() {
            if file.name.as_str() == name {
                file.bytes.extend_from_slice(bytes)?;
            }
        }
        Ok(())
    }

    // Notes a folder.
    fn note(&mut self, name: &str) -> Result<(), NoMemory>
        ensures faults { self.new.faults ≡ self.old.faults }
        ensures starved { self.new.starved ≡ self.old.starved }
    {
        let name = Name::copy(self.alloc, name)?;
        self.folders.push(name)?;
        Ok(())
    }

    // What stands under a root.
    fn under(&self, root: &str) -> Result<Vec<Entry>, NoMemory> {
        let mut entries = Vec::new(self.alloc);
        for file in self.files.as_slice() {
            let rest = file.name.as_str().strip_prefix(root);
            if let Some(name) = rest.and_then(|rest| rest.strip_prefix("/")) {
                let name = Name::copy(self.alloc, name)?;
                entries.push(Entry { name, plain: true })?;
            }
        }
        Ok(entries)
    }

    // The bytes of a file.
    fn bytes_of(&self, name: &str) -> Option<&[u8]> {
        for file in self.files.as_slice() {
            if file.name.as_str() == name {
                return Some(file.bytes.as_slice());
            }
        }
        None
    }

    // Whether a file has these bytes.
    fn has(&self, name: &str, bytes: &[u8]) -> bool {
        match self.bytes_of(name) {
            Some(held) => held == bytes,
            None => false,
        }
    }

    // Whether a reading from the place gives another byte.
    fn turns(&mut self, at: u64) -> bool
        ensures faults { self.new.faults ≡ self.old.faults }
        ensures starved { self.new.starved ≡ self.old.starved }
    {
        if self.fickle != Some(at) {
            return false;
        }
        self.readings = self.readings.saturating_add(1);
        self.readings == 2
    }
}

#[tactic(auto, unfolding(shelf_core::specs::Told::IsTold, shelf_core::specs::Told::IsFree, shelf_core::specs::Told::IsNotUnsealed, shelf_core::specs::Told::with_file, shelf_core::specs::Told::with_unsealed, shelf_core::specs::Told::without_unsealed))]
impl Shelf for Foldered {
    ghost use Rattle.std.specs.Prelude.{None};
    ghost use Rattle.std.proofs.Common.{refl};
    ghost use Rattle.shelf_core.specs.Untold.{has_file, no_content};

    ghost files = { λ shelf. None };

    ghost unsealed = { λ shelf. None };

    ghost faults = { λ shelf. shelf.faults };

    ghost starved = { λ shelf. shelf.starved };

    ghost told_together = { λ shelf. refl };

    ghost contents_are_bytes = { λ shelf. no_content };

    ghost unsealed_is_there = { λ shelf name told unsealed. has_file name };

    fn list(&mut self, root: &str) -> Result<Vec<Entry>, ShelfError> {
        match self.under(root) {
            Ok(entries) => Ok(entries),
            Err(NoMemory) => Err(self.starve()),
        }
    }

    fn len(&mut self, name: &str) -> Result<Option<u64>, ShelfError> {
        Ok(self.bytes_of(name).map(|bytes| bytes.len() as u64))
    }

    fn read_at(&mut self, name: &str, at: u64, buf: &mut [u8]) -> Result<usize, ShelfError> {
        let turns = self.turns(at);
        let count = match self.bytes_of(name) {
            Some(bytes) => read_from(bytes, at, buf),
            None => 0,
        };
        if let Some(byte) = buf.first_mut() {
            if turns {
                *byte ^= 1;
            }
        }
        Ok(count)
    }

    fn create(&mut self, name: &str) -> Result<(), CreateError> {
        for folder in self.folders.as_slice() {
            if stands_in(name, folder.as_str()) {
                return match self.hold(name, &[]) {
                    Ok(()) => Ok(()),
                    Err(NoMemory) => {
                        self.starve();
                        Err(CreateError::NoMemory)
                    }
                };
            }
        }
        self.faults = self.faults.saturating_add(1);
        Err(CreateError::Failed)
    }

    fn make_folder(&mut self, name: &str) -> Result<(), ShelfError> {
        match self.note(name) {
            Ok(()) => Ok(()),
            Err(NoMemory) => Err(self.starve()),
        }
    }

    fn append(&mut self, name: &str, bytes: &[u8]) -> Result<(), ShelfError> {
        match self.add(name, bytes) {
            Ok(()) => Ok(()),
            Err(NoMemory) => Err(self.starve()),
        }
    }

    fn seal(&mut self, _name: &str) -> Result<(), ShelfError> {
        Ok(())
    }
}

// A shelf that has one file.
fn shelf_with(
    alloc: Global,
    name: &str,
    bytes: &[u8],
    fickle: Option<u64>,
) -> Result<Foldered, NoMemory> {
    let mut shelf = Foldered {
        alloc,
        files: Vec::new(alloc),
        folders: Vec::new(alloc),
        fickle,
        readings: 0,
        faults: 0,
        starved: 0,
    };
    shelf.hold(name, bytes)?;
    Ok(shelf)
}

const DEEP: [File<'static>; 3] = [
    ("d/a/b/c", b"first"),
    ("d/a/b/d", b"second"),
    ("d/a/e", b"third"),
];

// Each folder is made once, and those above it before it.
#[test]
fn folders_are_made_before_what_stands_in_them(rt: HostRuntime) -> Result<(), Fail> {
    let package = package_of(&rt, rt.alloc(), &DEEP)?;
    let mut shelf = shelf_with(rt.alloc(), "p", package.as_slice(), None)?;
    let report = "restored 3 files, 16 bytes\n";
    ends(&rt, rt.alloc(), &mut shelf, "restore p t", 0, report)?;
    is(&rt, shelf.files.len(), 4);
    assert!(rt; shelf.has("t/a/b/c", b"first"));
    assert!(rt; shelf.has("t/a/b/d", b"second"));
    assert!(rt; shelf.has("t/a/e", b"third"));
    let wanted = ["t", "t/a", "t/a/b"];
    is(&rt, shelf.folders.len(), wanted.len());
    for (folder, name) in shelf.folders.as_slice().iter().zip(&wanted) {
        is(&rt, folder.as_str(), *name);
    }
    Ok(())
}

const SHARED: [File<'static>; 3] = [("d/a/b/y", b"1"), ("d/a/x", b"2"), ("d/c", b"3")];

// A folder that several files stand in is made once, and no other is made.
#[test]
fn no_folder_is_made_twice(rt: HostRuntime) -> Result<(), Fail> {
    let package = package_of(&rt, rt.alloc(), &SHARED)?;
    let mut shelf = shelf_with(rt.alloc(), "p", package.as_slice(), None)?;
    let report = "restored 3 files, 3 bytes\n";
    ends(&rt, rt.alloc(), &mut shelf, "restore p t", 0, report)?;
    let wanted = ["t", "t/a", "t/a/b"];
    is(&rt, shelf.folders.len(), wanted.len());
    for (folder, name) in shelf.folders.as_slice().iter().zip(&wanted) {
        is(&rt, folder.as_str(), *name);
    }
    Ok(())
}

// The place at which a text stands first.
fn place_in(bytes: &[u8], text: &[u8]) -> Option<usize> {
    for place in 0..bytes.len() {
        if bytes[place..].starts_with(text) {
            return Some(place);
        }
    }
    None
}

// A content that fits the buffer is written as it was checked: there is no second reading.
#[test]
fn a_short_content_is_read_once(rt: HostRuntime) -> Result<(), Fail> {
    let package = package_of(&rt, rt.alloc(), &DEEP)?;
    let place = place_in(package.as_slice(), b"second").ok_or("a content")?;
    let mut shelf = shelf_with(rt.alloc(), "p", package.as_slice(), Some(place as u64))?;
    let report = "restored 3 files, 16 bytes\n";
    ends(&rt, rt.alloc(), &mut shelf, "restore p t", 0, report)?;
    assert!(rt; shelf.has("t/a/b/d", b"second"));
    Ok(())
}

// A text and then zeros, so many bytes in all.
fn long_content(alloc: Global, text: &[u8], len: usize) -> Result<Vec<u8>, NoMemory> {
    let mut bytes = Vec::from_slice(alloc, text)?;
    bytes.resize(len, 0)?;
    Ok(bytes)
}

// The buffer has room for 16 MiB.
#[test]
fn another_second_reading_is_a_fault_of_the_file(rt: HostRuntime) -> Result<(), Fail> {
    let long = long_content(rt.alloc(), b"second", 17_000_000)?;
    let files: [File<'_>; 2] = [("d/a/b/c", b"first"), ("d/a/b/d", long.as_slice())];
    let package = package_of(&rt, rt.alloc(), &files)?;
    let place = place_in(package.as_slice(), b"second").ok_or("a content")?;
    let mut shelf = shelf_with(rt.alloc(), "p", package.as_slice(), Some(place as u64))?;
    let line = "cook: package: file a/b/d: Sum\n";
    ends(&rt, rt.alloc(), &mut shelf, "restore p t", 3, line)?;
    is(&rt, shelf.files.len(), 3);
    assert!(rt; shelf.has("t/a/b/c", b"first"));
    Ok(())
}

// A content is read once: its sum is of the very bytes that are in the package, which gives the file back.
#[test]
fn what_is_packed_is_what_was_summed(rt: HostRuntime) -> Result<(), Fail> {
    let mut shelf = shelf_with(rt.alloc(), "d/f", b"first", Some(0))?;
    shelf.note("t")?;
    let report = "packed 1 files, 0 tracks, 0 blocks, 220 bytes\n";
    ends(&rt, rt.alloc(), &mut shelf, "pack d t/p", 0, report)?;
    let package = shelf.bytes_of("t/p").ok_or("a package")?;
    let mut shelf = shelf_with(rt.alloc(), "p", package, None)?;
    let report = "restored 1 files, 5 bytes\n";
    ends(&rt, rt.alloc(), &mut shelf, "restore p t", 0, report)?;
    assert!(rt; shelf.has("t/f", b"first"));
    Ok(())
}

// Shelves and sinks with something in them, and orders that are done on them.
use cook_top::{Status, cook};
use shelf_core::{MemShelf, MemSink, Shelf, Sink};
use std::alloc::{AllocError, Global};
use std::fmt::Debug;
use std::process::Abort;
use std::test::Fail;

// A file: its full name and its bytes.
pub type File<'a> = (&'a str, &'a [u8]);

// What is given is what is wanted. An assertion where it stands is proved three times as long as this call.
pub fn is<T: PartialEq + Debug + Drop>(rt: &impl Abort, given: T, wanted: T) {
    assert_eq!(rt; given, wanted);
}

// An empty sink with room for each line, whose write of a number fails.
pub fn sink(alloc: Global, fail_call: u32) -> Result<MemSink, Fail> {
    let mut failing = Vec::new(alloc);
    failing.push(fail_call)?;
    Ok(MemSink::new(alloc, 200, failing)?)
}

// Makes a file, and seals it.
#[tactic(auto, using(shelf_core::specs::FileLaws::file_laws))]
pub fn add_file<S: Shelf>(shelf: &mut S, name: &str, bytes: &[u8]) -> Result<(), Fail> {
    shelf.create(name)?;
    shelf.append(name, bytes)?;
    shelf.seal(name)?;
    Ok(())
}

// A shelf in memory with these files, whose calls of these numbers fail.
pub fn shelf_of(alloc: Global, files: &[File<'_>], failing: Vec<u32>) -> Result<MemShelf, Fail> {
    let mut shelf = MemShelf::new(alloc, Vec::new(alloc), failing);
    for (name, bytes) in files {
        add_file(&mut shelf, name, bytes)?;
    }
    Ok(shelf)
}

// The bytes of the file of a full name.
pub fn file_of<'a>(shelf: &'a MemShelf, name: &str) -> Option<&'a [u8]> {
    for file in shelf.files() {
        if file.0.as_str() == name {
            return Some(file.1.as_slice());
        }
    }
    None
}

// Whether the file of a full name has these bytes.
pub fn has_file(shelf: &MemShelf, name: &str, bytes: &[u8]) -> bool {
    match file_of(shelf, name) {
        Some(held) => held == bytes,
        None => false,
    }
}

// The words of a line, which are parted by one space each.
fn words_of(alloc: Global, line: &str) -> Result<Vec<String>, AllocError> {
    let mut words = Vec::new(alloc);
    for word in line.split(' ') {
        words.push(String::from_str(alloc, word)?)?;
    }
    Ok(words)
}

// Does what a line of words orders.
pub fn cook_line<S: Shelf, O: Sink>(
    alloc: Global,
    line: &str,
    shelf: &mut S,
    out: &mut O,
) -> Result<Status, AllocError> {
    let words = words_of(alloc, line)?;
    Ok(cook(alloc, words.as_slice(), shelf, out))
}

// Does what a line of words orders: it ends with the number, and the text is written.
pub fn ends<S: Shelf>(
    rt: &impl Abort,
    alloc: Global,
    shelf: &mut S,
    line: &str,
    number: u8,
    text: &str,
) -> Result<(), Fail> {
    let mut out = sink(alloc, 99)?;
    let status = cook_line(alloc, line, shelf, &mut out)?;
    assert_eq!(rt; status.number(), number, "of {line:?}: {status:?}");
    assert_eq!(rt; out.bytes(), text.as_bytes(), "for {line:?}");
    Ok(())
}

// Packs these files, which stand under `d`, and answers the package.
pub fn package_of(rt: &impl Abort, alloc: Global, files: &[File<'_>]) -> Result<Vec<u8>, Fail> {
    let mut shelf = shelf_of(alloc, files, Vec::new(alloc))?;
    let mut out = sink(alloc, 99)?;
    let status = cook_line(alloc, "pack d p", &mut shelf, &mut out)?;
    assert!(rt; matches!(status, Status::Done), "{status:?}");
    assert_eq!(rt; shelf.unsealed().len(), 0);
    let package = file_of(&shelf, "p").ok_or("a package")?;
    Ok(Vec::from_slice(alloc, package)?)
}

// Packages that are checked and restored.

ghost use Rattle.std.specs.Prelude.{OnOk};
ghost use Rattle.shelf_core.specs.Reads.{Has};

use crate::shelf::{PACKAGE, ROOT, shelf_of};
use crate::stop::Stop;
use crate::{answer, parse};
use cook_bits::Name;
use cook_restore::{FileError, PackageWhy, RestoreError, Restorer, open_package};
use cook_top::{Status, write_line};
use shelf_core::{MemSink, Shelf};
use std::alloc::Global;

/// How many workers decode frames.
const WORKERS: u32 = 4;

// More bytes than a line has: a name of the side data has fewer than 2^16.
const MOST_LINE: usize = 1 << 17;

/// The answer to a case of a package, if the words are one: it is restored, or checked with its end cut off or a bit turned,
/// once for each place.
pub fn answer_to(alloc: Global, words: &[&str]) -> Option<Result<String, Stop>> {
    Some(match words {
        ["restore", package] => restored(alloc, package),
        ["cuts", step, package] => cuts(alloc, step, package),
        ["flips", bits, package] => flips(alloc, bits, package),
        _ => return None,
    })
}

// Gives the files of a package, and answers how many bytes they have, or why the first is not given that isn't.
fn give_files<S: Shelf>(
    alloc: Global,
    shelf: &mut S,
    restorer: &mut Restorer,
) -> Result<u128, FileError>
    requires { Has S.Shelf shelf.old restorer.old.pkg }
{
    let mut bytes = 0u128;
    for _ in 0..restorer.entries().len() {
        if let Some(file) = restorer.next_file(alloc, shelf)? {
            bytes = bytes.saturating_add(u128::from(file.length));
        }
    }
    Ok(bytes)
}

// The fault of a file.
fn fault_of(alloc: Global, restorer: &Restorer, error: FileError) -> Result<PackageWhy, Stop> {
    let (number, why) = match error {
        FileError::File { number, why } => (number, why),
        FileError::NoMemory => return Err(Stop::NoMemory),
        _ => return Err(Stop::OutOfRange),
    };
    match restorer.entries().get(number as usize) {
        Some(entry) => Ok(PackageWhy::File {
            name: Name::copy(alloc, entry.name.as_str())?,
            why,
        }),
        None => Err(Stop::OutOfRange),
    }
}

// The line that says which fault a package has.
fn fault_line(alloc: Global, why: PackageWhy) -> Result<String, Stop> {
    let mut out = MemSink::new(alloc, MOST_LINE, Vec::new(alloc))?;
    if write_line(&mut out, &Status::PackageRefused { why }).is_err() {
        return Err(Stop::NoMemory);
    }
    match str::from_utf8(out.bytes()) {
        Ok(line) => Ok(String::from_str(alloc, line.trim_end_matches('\n'))?),
        Err(_) => Err(Stop::OutOfRange),
    }
}

// Gives the files of an open package, and tells how that ended.
fn given_line<S: Shelf>(
    alloc: Global,
    shelf: &mut S,
    restorer: &mut Restorer,
) -> Result<String, Stop>
    requires { Has S.Shelf shelf.old restorer.old.pkg }
{
    let files = restorer.entries().len();
    match give_files(alloc, shelf, restorer) {
        Ok(bytes) => Ok(format!(in alloc; "checked {files} files, {bytes} bytes")?),
        Err(error) => {
            let why = fault_of(alloc, restorer, error)?;
            fault_line(alloc, why)
        }
    }
}

// Gives the files of the package that stands on a shelf, under the target if there is one, and tells how that ended.
fn line_of<S: Shelf>(alloc: Global, shelf: &mut S, target: Option<&str>) -> Result<String, Stop> {
    match open_package(alloc, shelf, PACKAGE, target, WORKERS) {
        Ok(mut restorer) => given_line(alloc, shelf, &mut restorer),
        Err(RestoreError::Package(why)) => fault_line(alloc, why),
        Err(RestoreError::NoMemory) => Err(Stop::NoMemory),
        Err(_) => Err(Stop::OutOfRange),
    }
}

// The line of `check` for a package.
fn check_line(alloc: Global, package: &[u8]) -> Result<String, Stop> {
    let mut shelf = shelf_of(alloc, package)?;
    line_of(alloc, &mut shelf, None)
}

// The line of `check` for a package, and then the files that `restore` writes, in order of names.
fn restored(alloc: Global, package: &str) -> Result<String, Stop> {
    let package = parse::bytes(alloc, package)?;
    let mut text = check_line(alloc, package.as_slice())?;
    let mut shelf = shelf_of(alloc, package.as_slice())?;
    let _line = line_of(alloc, &mut shelf, Some(ROOT))?;
    for (name, content) in shelf.files() {
        if let Some(name) = name.as_str().strip_prefix("d/") {
            push_file(alloc, &mut text, name, content.as_slice())?;
        }
    }
    Ok(text)
}

fn push_file(alloc: Global, text: &mut String, name: &str, content: &[u8]) -> Result<(), Stop> {
    let name = answer::bytes(alloc, name.as_bytes())?;
    let (len, sum) = (content.len(), answer::sum(alloc, content)?);
    let told = format!(in alloc; " / {name} {len} {sum}")?;
    text.push_str(told.as_str())?;
    Ok(())
}

// Adds a line behind those that are there.
fn push_line(text: &mut String, line: &str) -> Result<(), Stop> {
    if !text.is_empty() {
        text.push_str(" / ")?;
    }
    text.push_str(line)?;
    Ok(())
}

// Checks the first bytes of a package, at each `step` bytes.
fn cuts(alloc: Global, step: &str, package: &str) -> Result<String, Stop> {
    let step: usize = parse::number(step)?;
    let package = parse::bytes(alloc, package)?;
    if step == 0 {
        return Err(Stop::OutOfRange);
    }
    let mut text = String::new(alloc);
    for len in 0..package.len() {
        if len % step == 0 {
            let line = check_line(alloc, &package.as_slice()[..len])?;
            push_line(&mut text, line.as_str())?;
        }
    }
    Ok(text)
}

// Turns a bit. Bits are counted from the highest of the first byte.
fn turn(bytes: &mut [u8], bit: usize) -> Result<(), Stop> {
    match bytes.get_mut(bit / 8) {
        Some(byte) => {
            *byte ^= 0x80 >> (bit % 8);
            Ok(())
        }
        None => Err(Stop::OutOfRange),
    }
}

// The line of `check` for a package with a bit turned.
fn turned_line(alloc: Global, package: &[u8], bit: usize) -> Result<String, Stop> {
    let mut turned = Vec::from_slice(alloc, package)?;
    turn(turned.as_mut_slice(), bit)?;
    check_line(alloc, turned.as_slice())
}

fn flips(alloc: Global, bits: &str, package: &str) -> Result<String, Stop> {
    let bits: Vec<usize> = parse::numbers(alloc, bits)?;
    let package = parse::bytes(alloc, package)?;
    let mut text = String::new(alloc);
    for bit in bits.as_slice() {
        let line = turned_line(alloc, package.as_slice(), *bit)?;
        push_line(&mut text, line.as_str())?;
    }
    Ok(text)
}

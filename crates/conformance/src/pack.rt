// Directories that are packed.

ghost use Rattle.std.specs.Prelude.{◌≤◌};

use crate::shelf::{PACKAGE, ROOT, content_of, put};
use crate::stop::Stop;
use crate::{answer, parse};
use cook_bits::full_name;
use cook_pack::{Options, PackError, PackSum, RefuseWhy, pack, plan};
use shelf_core::{CalmShelf, Shelf};
use std::alloc::Global;

/// How many workers code frames.
const WORKERS: u32 = 4;

/// The answer to a case of a directory that is packed, if the words are one: the rate, and names with their contents.
pub fn answer_to(alloc: Global, words: &[&str]) -> Option<Result<String, Stop>> {
    match words {
        ["pack", rate, files @ ..] => Some(package(alloc, rate, files)),
        _ => None,
    }
}

// Puts the files of a directory on a shelf: names and contents in turn.
fn put_files<S: Shelf>(alloc: Global, shelf: &mut S, words: &[&str]) -> Result<(), Stop> {
    for file in words.chunks(2) {
        let [name, content] = file else {
            return Err(Stop::Unreadable);
        };
        let name = full_name(alloc, ROOT, parse::text(alloc, name)?.as_str())?;
        put(
            shelf,
            name.as_str(),
            parse::bytes(alloc, content)?.as_slice(),
        )?;
    }
    Ok(())
}

fn package(alloc: Global, rate: &str, files: &[&str]) -> Result<String, Stop> {
    let rate = parse::number(rate)?;
    if rate < 1 || rate > 240 {
        return Err(Stop::OutOfRange);
    }
    let mut shelf = CalmShelf::new(alloc, Vec::new(alloc));
    put_files(alloc, &mut shelf, files)?;
    match packed(alloc, &mut shelf, rate) {
        Ok(sum) => sum_told(alloc, &shelf, sum),
        Err(PackError::Refused { name, why }) => refusal_told(alloc, name.as_str(), why),
        Err(PackError::NoMemory) => Err(Stop::NoMemory),
        Err(_) => Err(Stop::OutOfRange),
    }
}

fn packed<S: Shelf>(alloc: Global, shelf: &mut S, rate: u32) -> Result<PackSum, PackError>
    requires { (1 ≤ rate) × (rate ≤ 240) }
{
    let plan = plan(alloc, shelf, ROOT)?;
    let options = Options {
        workers: WORKERS,
        rate,
    };
    pack(alloc, shelf, &plan, PACKAGE, options)
}

fn sum_told(alloc: Global, shelf: &CalmShelf, packed: PackSum) -> Result<String, Stop> {
    let Some(package) = content_of(shelf.files(), PACKAGE) else {
        return Err(Stop::OutOfRange);
    };
    let (len, sum) = (package.len(), answer::sum(alloc, package)?);
    let (tracks, blocks) = (packed.tracks, packed.blocks);
    Ok(format!(in alloc; "{len} {sum} {tracks} {blocks}")?)
}

fn refusal_told(alloc: Global, name: &str, why: RefuseWhy) -> Result<String, Stop> {
    let name = answer::bytes(alloc, name.as_bytes())?;
    Ok(format!(in alloc; "Refused {name} {why:?}")?)
}

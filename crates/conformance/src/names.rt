// Names that are inserted into a tree one after another.

ghost use Rattle.std.specs.Prelude.{◌≡◌, true};
ghost use Rattle.name_tree.specs.Held.{is_among};

use crate::stop::Stop;
use crate::{answer, parse};
use name_tree::{NameError, NameTree};
use std::alloc::Global;

/// The answer to a case of names, if the words are one: names in order of insertion.
pub fn answer_to(alloc: Global, words: &[&str]) -> Option<Result<String, Stop>> {
    match words {
        ["names", names @ ..] => Some(names_of(alloc, names)),
        _ => None,
    }
}

// The lengths of the folders of a name that are given now.
fn folders_of(alloc: Global, tree: &mut NameTree, name: &str) -> Result<String, Stop>
    requires { is_among tree.old.names name.now ≡ true }
{
    let mut lengths = Vec::new(alloc);
    for _ in 0..name.len() {
        match tree.next_folder(name) {
            Some(length) => lengths.push(length)?,
            None => break,
        }
    }
    answer::numbers(alloc, lengths.as_slice())
}

// What inserting a name answers: why it is refused, or its folders that are given then.
fn inserted(alloc: Global, tree: &mut NameTree, name: &str) -> Result<String, Stop> {
    match tree.insert(name) {
        Ok(()) => folders_of(alloc, tree, name),
        Err(NameError::NoMemory) => Err(Stop::NoMemory),
        Err(why) => Ok(format!(in alloc; "{why:?}")?),
    }
}

fn names_of(alloc: Global, names: &[&str]) -> Result<String, Stop> {
    let mut tree = NameTree::new(alloc);
    let mut text = String::new(alloc);
    for name in parse::texts(alloc, names)?.as_slice() {
        text.push_str(inserted(alloc, &mut tree, name.as_str())?.as_str())?;
        text.push(' ')?;
    }
    let walk: Vec<usize> = tree.walk().collect(alloc)?;
    text.push_str("/ ")?;
    text.push_str(answer::numbers(alloc, walk.as_slice())?.as_str())?;
    Ok(text)
}

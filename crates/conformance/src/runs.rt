// The runs of frames in a listing of names.

ghost use Rattle.std.specs.Prelude.{◌≡◌, ◌≤◌, length, IsTrue};
ghost use Rattle.std.specs.Ordering.{nat_cmp};
ghost use Rattle.std.specs.Cmp.Lexicographic.{slice_cmp};
ghost use Rattle.sequence_scan.specs.Runs.{AreFrames};

use crate::stop::Stop;
use crate::{answer, parse};
use cook_bits::Name;
use std::alloc::Global;
use std::cmp::Ordering;

/// The answer to a case of runs, if the words are one: the names of frames.
pub fn answer_to(alloc: Global, words: &[&str]) -> Option<Result<String, Stop>> {
    match words {
        ["runs", names @ ..] => Some(runs_of(alloc, names)),
        _ => None,
    }
}

fn names_read(alloc: Global, words: &[&str]) -> Result<Vec<Name>, Stop> {
    let mut names = Vec::new(alloc);
    for word in words {
        names.push(Name::from_string(parse::text(alloc, word)?))?;
    }
    Ok(names)
}

fn has_ending(name: &Name) -> bool
    ensures { IsTrue result → 4 ≤ length name.now }
{
    name.as_str().len() >= 4
}

fn is_above(name: &Name, before: &Name) -> bool
    ensures { IsTrue result → slice_cmp nat_cmp before.now name.now ≡ Ordering.Less }
{
    before.cmp(name).is_lt()
}

// Whether the names may be listed: in order, none twice, each with an ending.
fn are_frames(names: &[Name]) -> bool
    ensures { IsTrue result → AreFrames names.now }
{
    for place in 0..names.len() {
        if !has_ending(&names[place]) {
            return false;
        }
        if place > 0 && !is_above(&names[place], &names[place - 1]) {
            return false;
        }
    }
    true
}

fn runs_of(alloc: Global, names: &[&str]) -> Result<String, Stop> {
    let names = names_read(alloc, names)?;
    if names.len() > u32::MAX as usize || !are_frames(names.as_slice()) {
        return Err(Stop::OutOfRange);
    }
    let mut text = String::new(alloc);
    for run in sequence_scan::runs(alloc, names.as_slice())? {
        if !text.is_empty() {
            text.push('/')?;
        }
        let members = answer::numbers(alloc, run.members.as_slice())?;
        text.push_str(members.as_str())?;
    }
    if text.is_empty() {
        text.push('-')?;
    }
    Ok(text)
}

// A line as a case: which section it is of, and its answer.

use crate::stop::Stop;
use crate::{
    bits, coder, dpx, ebml, flac, frames, names, outline, pack, params, predict, restore, runs,
    side, slices, waves, words,
};
use std::alloc::{AllocError, Global};
use std::marker::Sync;
use std::thread::Threads;

/// A section: calls that are answered in one module.
#[derive(Clone, Copy)]
enum Section {
    Bits,
    Coder,
    Params,
    Dpx,
    Runs,
    Names,
    Slices,
    Frames,
    Predict,
    Flac,
    Ebml,
    Side,
    Waves,
    Outline,
    Pack,
    Restore,
    Words,
}

const SECTIONS: [Section; 17] = [
    Section::Bits,
    Section::Coder,
    Section::Params,
    Section::Dpx,
    Section::Runs,
    Section::Names,
    Section::Slices,
    Section::Frames,
    Section::Predict,
    Section::Flac,
    Section::Ebml,
    Section::Side,
    Section::Waves,
    Section::Outline,
    Section::Pack,
    Section::Restore,
    Section::Words,
];

// The answer to a case of the section, if the words are one.
fn answer_in<R: Threads + Sync>(
    section: Section,
    rt: &R,
    alloc: Global,
    words: &[&str],
) -> Option<Result<String, Stop>> {
    match section {
        Section::Bits => bits::answer_to(alloc, words),
        Section::Coder => coder::answer_to(alloc, words),
        Section::Params => params::answer_to(alloc, words),
        Section::Dpx => dpx::answer_to(alloc, words),
        Section::Runs => runs::answer_to(alloc, words),
        Section::Names => names::answer_to(alloc, words),
        Section::Slices => slices::answer_to(alloc, words),
        Section::Frames => frames::answer_to(rt, alloc, words),
        Section::Predict => predict::answer_to(alloc, words),
        Section::Flac => flac::answer_to(alloc, words),
        Section::Ebml => ebml::answer_to(alloc, words),
        Section::Side => side::answer_to(alloc, words),
        Section::Waves => waves::answer_to(alloc, words),
        Section::Outline => outline::answer_to(alloc, words),
        Section::Pack => pack::answer_to(alloc, words),
        Section::Restore => restore::answer_to(alloc, words),
        Section::Words => words::answer_to(alloc, words),
    }
}

// The answer to the case that the words say.
fn answer<R: Threads + Sync>(rt: &R, alloc: Global, words: &[&str]) -> Result<String, Stop> {
    for section in SECTIONS {
        if let Some(answer) = answer_in(section, rt, alloc, words) {
            return answer;
        }
    }
    Err(Stop::Unreadable)
}

/// The answer to a line. A comment is its own answer.
pub fn answer_of<R: Threads + Sync>(
    rt: &R,
    alloc: Global,
    line: &str,
) -> Result<String, AllocError> {
    if line.starts_with('#') {
        return String::from_str(alloc, line);
    }
    let words: Vec<&str> = line.split(' ').collect(alloc)?;
    match answer(rt, alloc, words.as_slice()) {
        Ok(answer) => Ok(answer),
        Err(stop) => format!(in alloc; "{stop}"),
    }
}

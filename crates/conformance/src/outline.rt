// The outlines of packages.

use crate::shelf::{PACKAGE, len_of, shelf_of};
use crate::stop::Stop;
use crate::{answer, parse};
use matroska_read::{BlockAt, Codec, FileAt, Outline, OutlineError, Track};
use std::alloc::Global;

/// The answer to a case of a package whose outline is read, if the words are one.
pub fn answer_to(alloc: Global, words: &[&str]) -> Option<Result<String, Stop>> {
    match words {
        ["outline", package] => Some(outline(alloc, package)),
        _ => None,
    }
}

fn outline(alloc: Global, package: &str) -> Result<String, Stop> {
    let mut shelf = shelf_of(alloc, parse::bytes(alloc, package)?.as_slice())?;
    let len = len_of(&mut shelf, PACKAGE)?;
    match matroska_read::outline(alloc, &mut shelf, PACKAGE, len) {
        Ok(outline) => outline_told(alloc, &outline),
        Err(why) => why_told(alloc, why),
    }
}

fn why_told(alloc: Global, why: OutlineError) -> Result<String, Stop> {
    match why {
        OutlineError::Shape { place } => Ok(format!(in alloc; "Shape {place}")?),
        OutlineError::Encoded { track } => Ok(format!(in alloc; "Encoded {track}")?),
        OutlineError::TrackUnknown { track } => Ok(format!(in alloc; "TrackUnknown {track}")?),
        OutlineError::NoMemory => Err(Stop::NoMemory),
        OutlineError::Short { .. } | OutlineError::Failed => Err(Stop::OutOfRange),
    }
}

fn outline_told(alloc: Global, outline: &Outline) -> Result<String, Stop> {
    let (tracks, blocks, files) = (outline.tracks(), outline.blocks(), outline.files());
    let (track_count, block_count, file_count) = (tracks.len(), blocks.len(), files.len());
    let mut text = format!(in alloc; "ok {track_count} {block_count} {file_count}")?;
    for track in tracks {
        push_track(alloc, &mut text, track)?;
    }
    for block in blocks {
        push_block(alloc, &mut text, block)?;
    }
    for file in files {
        push_file(alloc, &mut text, file)?;
    }
    Ok(text)
}

fn push_file(alloc: Global, text: &mut String, file: &FileAt) -> Result<(), Stop> {
    let name = answer::bytes(alloc, file.name.as_slice())?;
    let (side, at, len) = (u8::from(file.side), file.at, file.len);
    let told = format!(in alloc; " {name} {side} {at} {len}")?;
    text.push_str(told.as_str())?;
    Ok(())
}

fn codec_told(codec: Codec) -> &'static str {
    match codec {
        Codec::Ffv1 => "Ffv1",
        Codec::Flac => "Flac",
    }
}

fn push_track(alloc: Global, text: &mut String, track: &Track) -> Result<(), Stop> {
    let private = answer::bytes(alloc, track.private.as_slice())?;
    let (number, codec) = (track.number, codec_told(track.codec));
    let (width, height) = (track.width, track.height);
    let told = format!(in alloc; " {number} {codec} {private} {width} {height}")?;
    text.push_str(told.as_str())?;
    Ok(())
}

fn push_block(alloc: Global, text: &mut String, block: &BlockAt) -> Result<(), Stop> {
    let (track, at, len, damaged) = (block.track, block.at, block.len, u8::from(block.damaged));
    let told = format!(in alloc; " {track} {at} {len} {damaged}")?;
    text.push_str(told.as_str())?;
    Ok(())
}

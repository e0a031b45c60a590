ghost use Rattle.std.specs.Prelude.{◌≡◌, length, IfOk};
ghost use Rattle.reversal.specs.SideData.{IsSideDataOf};
ghost use Rattle.reversal.specs.SideReading.{Gives, GivesSide, piece_at, number_at, tag_at, text_at, name_at, track_at, block_at, form_at, frame_at, wave_at, parts_at, record_at, records_at, mark_at, side_at, side_read};

use crate::names::first_bad_name;
use crate::parts::{FRAME, OTHER, Parts, TRACKS, Tag, WAVE};
use crate::unread::Unread;
use crate::writing::MARK;
use crate::{FileRecord, Kind, SideError};
use byteorder::{BigEndian, ByteOrder};
use cook_bits::{Bytes, Name, NoMemory};
use dpx_packing::pad_form_len;
use std::alloc::Global;
use std::str::from_utf8;

// So many bytes, of a field that began where `left` bytes were left.
fn piece_of(left: usize, len: usize, bytes: &[u8]) -> Result<(&[u8], &[u8]), Unread>
    ensures exact { Gives (λ x. (x.0.now, x.1.now)) result (piece_at left len bytes.now) }
    ensures long { IfOk result (λ x. length x.0.now ≡ len) }
{
    if bytes.len() < len {
        return Err(Unread::Fault { left });
    }
    Ok(bytes.split_at(len))
}

fn u16_of(bytes: &[u8]) -> Result<(u16, &[u8]), Unread>
    ensures { Gives (λ x. (x.0, x.1.now)) result (number_at 2 bytes.now) }
{
    let (number, rest) = piece_of(bytes.len(), 2, bytes)?;
    Ok((BigEndian::read_u16(number), rest))
}

fn u32_of(bytes: &[u8]) -> Result<(u32, &[u8]), Unread>
    ensures { Gives (λ x. (x.0, x.1.now)) result (number_at 4 bytes.now) }
{
    let (number, rest) = piece_of(bytes.len(), 4, bytes)?;
    Ok((BigEndian::read_u32(number), rest))
}

fn u64_of(bytes: &[u8]) -> Result<(u64, &[u8]), Unread>
    ensures { Gives (λ x. (x.0, x.1.now)) result (number_at 8 bytes.now) }
{
    let (number, rest) = piece_of(bytes.len(), 8, bytes)?;
    Ok((BigEndian::read_u64(number), rest))
}

fn tag_of(bytes: &[u8]) -> Result<(Tag, &[u8]), Unread>
    ensures { Gives (λ x. (x.0, x.1.now)) result (tag_at bytes.now) }
{
    match bytes {
        [OTHER, rest @ ..] => Ok((Tag::Other, rest)),
        [FRAME, rest @ ..] => Ok((Tag::Frame, rest)),
        [WAVE, rest @ ..] => Ok((Tag::Wave, rest)),
        _ => Err(Unread::Fault { left: bytes.len() }),
    }
}

// The bytes as a text, of a field that began where `left` bytes were left.
fn text_of(left: usize, bytes: &[u8]) -> Result<&str, Unread>
    ensures { Gives (λ text. text.now) result (text_at left bytes.now) }
{
    match from_utf8(bytes) {
        Ok(text) => Ok(text),
        Err(_) => Err(Unread::Fault { left }),
    }
}

#[tactic(auto, unfolding(crate::specs::SideReading::name_at))]
fn name_of(alloc: Global, bytes: &[u8]) -> Result<(Name, &[u8]), Unread>
    ensures { Gives (λ x. (x.0, x.1.now)) result (name_at bytes.now) }
{
    let (len, rest) = u16_of(bytes)?;
    let (name, rest) = piece_of(bytes.len(), len as usize, rest)?;
    let name = text_of(bytes.len(), name)?;
    Ok((Name::copy(alloc, name)?, rest))
}

fn sum_of(bytes: &[u8]) -> Result<([u8; 16], &[u8]), Unread>
    ensures { Gives (λ x. (x.0, x.1.now)) result (piece_at (length bytes.now) 16 bytes.now) }
{
    let (piece, rest) = piece_of(bytes.len(), 16, bytes)?;
    let mut sum = [0; 16];
    sum.copy_from_slice(piece);
    Ok((sum, rest))
}

fn track_of(bytes: &[u8]) -> Result<(u8, &[u8]), Unread>
    ensures { Gives (λ x. (x.0, x.1.now)) result (track_at bytes.now) }
{
    match bytes {
        [track, rest @ ..] if 1 <= *track && *track <= TRACKS => Ok((*track, rest)),
        _ => Err(Unread::Fault { left: bytes.len() }),
    }
}

// The bytes behind their length.
#[tactic(auto, unfolding(crate::specs::SideReading::block_at))]
fn block_of(bytes: &[u8]) -> Result<(&[u8], &[u8]), Unread>
    ensures { Gives (λ x. (x.0.now, x.1.now)) result (block_at bytes.now) }
{
    let (len, rest) = u64_of(bytes)?;
    piece_of(bytes.len(), len as usize, rest)
}

// The form of pads that the bytes begin with.
#[tactic(auto, unfolding(crate::specs::SideReading::form_at))]
fn form_of(bytes: &[u8]) -> Result<(&[u8], &[u8]), Unread>
    ensures { Gives (λ x. (x.0.now, x.1.now)) result (form_at bytes.now) }
{
    match pad_form_len(bytes) {
        Some(len) => Ok(bytes.split_at(len)),
        None => Err(Unread::Fault { left: bytes.len() }),
    }
}

#[tactic(auto, unfolding(crate::specs::SideReading::frame_at))]
fn frame_of(alloc: Global, bytes: &[u8]) -> Result<(Parts, &[u8]), Unread>
    ensures { Gives (λ x. (x.0, x.1.now)) result (frame_at bytes.now) }
{
    let (track, rest) = track_of(bytes)?;
    let (index, rest) = u32_of(rest)?;
    let (head, rest) = block_of(rest)?;
    let (pads, rest) = form_of(rest)?;
    let (tail, rest) = block_of(rest)?;
    let parts = Parts {
        kind: Kind::Frame { track, index },
        head: Bytes::copy(alloc, head)?,
        pads: Bytes::copy(alloc, pads)?,
        tail: Bytes::copy(alloc, tail)?,
    };
    Ok((parts, rest))
}

#[tactic(auto, unfolding(crate::specs::SideReading::wave_at))]
fn wave_of(alloc: Global, bytes: &[u8]) -> Result<(Parts, &[u8]), Unread>
    ensures { Gives (λ x. (x.0, x.1.now)) result (wave_at bytes.now) }
{
    let (track, rest) = track_of(bytes)?;
    let (head, rest) = block_of(rest)?;
    let (tail, rest) = block_of(rest)?;
    let parts = Parts {
        kind: Kind::Wave { track },
        head: Bytes::copy(alloc, head)?,
        pads: Bytes::new(alloc),
        tail: Bytes::copy(alloc, tail)?,
    };
    Ok((parts, rest))
}

// What a record has by its kind.
fn parts_of(alloc: Global, tag: Tag, bytes: &[u8]) -> Result<(Parts, &[u8]), Unread>
    ensures { Gives (λ x. (x.0, x.1.now)) result (parts_at tag bytes.now) }
{
    match tag {
        Tag::Other => Ok((Parts::none(alloc), bytes)),
        Tag::Frame => frame_of(alloc, bytes),
        Tag::Wave => wave_of(alloc, bytes),
    }
}

#[tactic(auto, unfolding(crate::specs::SideReading::record_at))]
fn record_of(alloc: Global, bytes: &[u8]) -> Result<(FileRecord, &[u8]), Unread>
    ensures { Gives (λ x. (x.0, x.1.now)) result (record_at bytes.now) }
{
    let (tag, rest) = tag_of(bytes)?;
    let (name, rest) = name_of(alloc, rest)?;
    let (length, rest) = u64_of(rest)?;
    let (md5, rest) = sum_of(rest)?;
    let (parts, rest) = parts_of(alloc, tag, rest)?;
    let Parts {
        kind,
        head,
        pads,
        tail,
    } = parts;
    let entry = FileRecord {
        name,
        kind,
        length,
        md5,
        head,
        pads,
        tail,
    };
    Ok((entry, rest))
}

fn records_of(alloc: Global, count: u32, bytes: &[u8]) -> Result<(Vec<FileRecord>, &[u8]), Unread>
    ensures { Gives (λ x. (x.0.items, x.1.now)) result (records_at count bytes.now) }
{
    let mut records = Vec::new(alloc);
    let mut rest = bytes;
    for _ in 0..count {
        let (entry, after) = record_of(alloc, rest)?;
        records.push(entry)?;
        rest = after;
    }
    Ok((records, rest))
}

fn after_mark(bytes: &[u8]) -> Result<&[u8], Unread>
    ensures { Gives (λ x. x.now) result (mark_at bytes.now) }
{
    let (mark, rest) = piece_of(bytes.len(), MARK.len(), bytes)?;
    if mark != MARK.as_slice() {
        return Err(Unread::Fault { left: bytes.len() });
    }
    Ok(rest)
}

#[tactic(auto, unfolding(crate::specs::SideReading::side_at))]
fn side_of(alloc: Global, bytes: &[u8]) -> Result<Vec<FileRecord>, Unread>
    ensures { Gives (λ v. v.items) result (side_at bytes.now) }
{
    let rest = after_mark(bytes)?;
    let (count, rest) = u32_of(rest)?;
    let (records, rest) = records_of(alloc, count, rest)?;
    if !rest.is_empty() {
        return Err(Unread::Fault { left: rest.len() });
    }
    Ok(records)
}

#[tactic(auto, unfolding(crate::specs::SideReading::side_read))]
fn named_records_of(alloc: Global, bytes: &[u8]) -> Result<Vec<FileRecord>, SideError>
    ensures { GivesSide result (side_read bytes.now) }
{
    let mut records = match side_of(alloc, bytes) {
        Ok(records) => records,
        Err(Unread::Fault { left }) => {
            let place = bytes.len().saturating_sub(left);
            return Err(SideError::SideBad {
                place: place as u64,
            });
        }
        Err(Unread::NoMemory) => return Err(SideError::NoMemory),
    };
    match first_bad_name(alloc, &records) {
        Ok(None) => Ok(records),
        Ok(Some(at)) => {
            let FileRecord { name, .. } = records.swap_remove(at);
            Err(SideError::SideNames { name })
        }
        Err(NoMemory) => Err(SideError::NoMemory),
    }
}

/// The records that the side data holds. The count is not trusted: memory is taken for a record only
/// once its bytes are there. `SideBad` tells the first byte of the first field that is cut or has a
/// value that it may not have, or of what stands behind the last record; `SideNames`, of side data
/// without such a fault, the first name that is not relative, not above the one before, or under one
/// before.
pub fn read(alloc: Global, bytes: &[u8]) -> Result<Vec<FileRecord>, SideError>
    // The records, or which fault it is.
    ensures exact { GivesSide result (side_read bytes.now) }
    // What is read is spelled so.
    ensures found { IfOk result (λ v. IsSideDataOf v.items bytes.now) }
{
    named_records_of(alloc, bytes)
}

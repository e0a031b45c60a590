// The notation of answers: what values are written as.

use crate::stop::Stop;
use itoa::{Buffer, Integer};
use md5::{Digest, Md5};
use std::alloc::Global;

// A longer list is answered by its count and its sum.
const MOST_ENTRIES: usize = 600;

/// The MD5 of bytes, in lower-case hexadecimal.
pub fn sum(alloc: Global, bytes: &[u8]) -> Result<String, Stop> {
    Ok(hex::encode(alloc, Md5::digest(bytes))?)
}

// A count and a sum.
fn counted(alloc: Global, count: usize, spelled: &[u8]) -> Result<String, Stop> {
    let sum = sum(alloc, spelled)?;
    Ok(format!(in alloc; "{count}:{sum}")?)
}

/// A list of bytes.
pub fn bytes(alloc: Global, list: &[u8]) -> Result<String, Stop> {
    if list.is_empty() {
        return Ok(String::from_str(alloc, "-")?);
    }
    if list.len() > MOST_ENTRIES {
        return counted(alloc, list.len(), list);
    }
    Ok(hex::encode_upper(alloc, list)?)
}

/// Numbers one by one, joined by commas. The list is never a long one.
pub fn numbers<N: Integer + Copy + Drop>(alloc: Global, list: &[N]) -> Result<String, Stop> {
    let mut text = String::new(alloc);
    for number in list {
        if !text.is_empty() {
            text.push(',')?;
        }
        text.push_str(Buffer::new().format(*number))?;
    }
    if text.is_empty() {
        text.push('-')?;
    }
    Ok(text)
}

/// The samples of a picture: a long list is summed as two bytes each, the lowest first.
pub fn samples(alloc: Global, list: &[u16]) -> Result<String, Stop> {
    if list.len() <= MOST_ENTRIES {
        return numbers(alloc, list);
    }
    let mut spelled = Vec::new(alloc);
    for sample in list {
        spelled.extend_from_slice(&sample.to_le_bytes())?;
    }
    counted(alloc, list.len(), spelled.as_slice())
}

/// The samples of sound: a long list is summed as four bytes each, the lowest first.
pub fn sound(alloc: Global, list: &[i32]) -> Result<String, Stop> {
    if list.len() <= MOST_ENTRIES {
        return numbers(alloc, list);
    }
    let mut spelled = Vec::new(alloc);
    for sample in list {
        spelled.extend_from_slice(&sample.to_le_bytes())?;
    }
    counted(alloc, list.len(), spelled.as_slice())
}

/// The pads of an image: a long list is summed as a byte each.
pub fn pads(alloc: Global, list: &[u8]) -> Result<String, Stop> {
    if list.len() <= MOST_ENTRIES {
        return numbers(alloc, list);
    }
    counted(alloc, list.len(), list)
}

// The elements of EBML.

ghost use Rattle.std.specs.Prelude.{IsTrue, ◌≤◌, ◌<◌, ◌-◌, ◌^◌};
ghost use Rattle.ebml_core.specs.Element.{IsIdentifier};

use crate::stop::Stop;
use crate::{answer, parse};
use cook_bits::Bytes;
use ebml_core::{Head, Size, head, head_len, put_bytes, put_head, put_uint, rate_bytes};
use std::alloc::Global;

/// The answer to a case of elements, if the words are one.
pub fn answer_to(alloc: Global, words: &[&str]) -> Option<Result<String, Stop>> {
    Some(match words {
        ["put_head", id, size] => head_put(alloc, id, size),
        ["head_len", id, size] => len_told(alloc, id, size),
        ["put_uint", id, value] => uint_put(alloc, id, value),
        ["put_bytes", id, content] => bytes_put(alloc, id, content),
        ["rate_bytes", rate] => rate_told(alloc, rate),
        ["read_id", list] => id_read(alloc, list),
        ["read_size", list] => size_read(alloc, list),
        ["read_head", list] => head_read(alloc, list),
        _ => return None,
    })
}

// The identifier whose bytes a word spells, as a number.
fn identifier(alloc: Global, word: &str) -> Result<u32, Stop> {
    match parse::bytes(alloc, word)?.as_slice() {
        [a] => Ok(u32::from(*a)),
        [a, b] => Ok(u32::from_be_bytes([0, 0, *a, *b])),
        [a, b, c] => Ok(u32::from_be_bytes([0, *a, *b, *c])),
        [a, b, c, d] => Ok(u32::from_be_bytes([*a, *b, *c, *d])),
        _ => Err(Stop::Unreadable),
    }
}

// Whether the number is an identifier with its marker, of one to four bytes.
fn is_identifier(id: u32) -> bool
    ensures { IsTrue result → IsIdentifier id }
{
    matches!(id, 0x80..=0xFF | 0x4000..=0x7FFF | 0x20_0000..=0x3F_FFFF | 0x1000_0000..=0x1FFF_FFFF)
}

// Whether a size is below the one that means that it isn't known.
fn is_known(size: u64) -> bool
    ensures { IsTrue result → size < 2 ^ 56 - 1 }
{
    size < (1 << 56) - 1
}

fn head_put(alloc: Global, id: &str, size: &str) -> Result<String, Stop> {
    let (id, size) = (identifier(alloc, id)?, parse::number(size)?);
    if !is_identifier(id) || !is_known(size) {
        return Err(Stop::OutOfRange);
    }
    let mut out = Bytes::new(alloc);
    put_head(&mut out, id, size)?;
    answer::bytes(alloc, out.as_slice())
}

fn len_told(alloc: Global, id: &str, size: &str) -> Result<String, Stop> {
    let (id, size) = (identifier(alloc, id)?, parse::number(size)?);
    if !is_identifier(id) || !is_known(size) {
        return Err(Stop::OutOfRange);
    }
    let len = head_len(id, size);
    Ok(format!(in alloc; "{len}")?)
}

fn uint_put(alloc: Global, id: &str, value: &str) -> Result<String, Stop> {
    let (id, value) = (identifier(alloc, id)?, parse::number(value)?);
    if !is_identifier(id) {
        return Err(Stop::OutOfRange);
    }
    let mut out = Bytes::new(alloc);
    put_uint(&mut out, id, value)?;
    answer::bytes(alloc, out.as_slice())
}

fn bytes_put(alloc: Global, id: &str, content: &str) -> Result<String, Stop> {
    let (id, content) = (identifier(alloc, id)?, parse::bytes(alloc, content)?);
    if !is_identifier(id) || !is_known(content.len() as u64) {
        return Err(Stop::OutOfRange);
    }
    let mut out = Bytes::new(alloc);
    put_bytes(&mut out, id, content.as_slice())?;
    answer::bytes(alloc, out.as_slice())
}

fn rate_told(alloc: Global, rate: &str) -> Result<String, Stop> {
    let rate = parse::number(rate)?;
    if rate == 0 {
        return Err(Stop::OutOfRange);
    }
    answer::bytes(alloc, &rate_bytes(rate))
}

fn none(alloc: Global) -> Result<String, Stop> {
    Ok(String::from_str(alloc, "none")?)
}

fn id_read(alloc: Global, list: &str) -> Result<String, Stop> {
    let list = parse::bytes(alloc, list)?;
    match ebml_core::read_id(list.as_slice()) {
        Some((id, len)) => Ok(format!(in alloc; "{id:X} {len}")?),
        None => none(alloc),
    }
}

fn size_told(alloc: Global, size: Size) -> Result<String, Stop> {
    match size {
        Size::Known(size) => Ok(format!(in alloc; "{size}")?),
        Size::Unknown => Ok(String::from_str(alloc, "unknown")?),
    }
}

fn size_read(alloc: Global, list: &str) -> Result<String, Stop> {
    let list = parse::bytes(alloc, list)?;
    let Some((size, len)) = ebml_core::read_size(list.as_slice()) else {
        return none(alloc);
    };
    let size = size_told(alloc, size)?;
    Ok(format!(in alloc; "{size} {len}")?)
}

fn head_read(alloc: Global, list: &str) -> Result<String, Stop> {
    let list = parse::bytes(alloc, list)?;
    let Some(Head { id, size, len }) = head(list.as_slice()) else {
        return none(alloc);
    };
    let size = size_told(alloc, size)?;
    Ok(format!(in alloc; "{id:X} {size} {len}")?)
}

// Checksums.

use crate::stop::Stop;
use crate::{answer, parse};
use std::alloc::Global;

/// The answer to a case of checksums, if the words are one.
pub fn answer_to(alloc: Global, words: &[&str]) -> Option<Result<String, Stop>> {
    Some(match words {
        ["crc32_high", list] => crc32_high(alloc, list),
        ["crc32_ebml", list] => crc32_ebml(alloc, list),
        ["crc8", list] => crc8(alloc, list),
        ["crc16", list] => crc16(alloc, list),
        _ => return None,
    })
}

fn crc32_high(alloc: Global, list: &str) -> Result<String, Stop> {
    let list = parse::bytes(alloc, list)?;
    answer::bytes(alloc, &cook_bits::crc32_high(list.as_slice()).to_be_bytes())
}

fn crc32_ebml(alloc: Global, list: &str) -> Result<String, Stop> {
    let list = parse::bytes(alloc, list)?;
    answer::bytes(alloc, &cook_bits::crc32_ebml(list.as_slice()).to_be_bytes())
}

fn crc8(alloc: Global, list: &str) -> Result<String, Stop> {
    let list = parse::bytes(alloc, list)?;
    answer::bytes(alloc, &[cook_bits::crc8(list.as_slice())])
}

fn crc16(alloc: Global, list: &str) -> Result<String, Stop> {
    let list = parse::bytes(alloc, list)?;
    answer::bytes(alloc, &cook_bits::crc16(list.as_slice()).to_be_bytes())
}

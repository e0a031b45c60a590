// Side data.

use crate::stop::Stop;
use crate::{answer, parse};
use reversal::SideError;
use std::alloc::Global;

/// The answer to a case of side data, if the words are one.
pub fn answer_to(alloc: Global, words: &[&str]) -> Option<Result<String, Stop>> {
    match words {
        ["side", list] => Some(side(alloc, list)),
        _ => None,
    }
}

fn side(alloc: Global, list: &str) -> Result<String, Stop> {
    let list = parse::bytes(alloc, list)?;
    match reversal::read(alloc, list.as_slice()) {
        Ok(records) => Ok(format!(in alloc; "ok {}", records.len())?),
        Err(SideError::SideBad { place }) => Ok(format!(in alloc; "SideBad {place}")?),
        Err(SideError::SideNames { name }) => {
            let name = answer::bytes(alloc, name.as_str().as_bytes())?;
            Ok(format!(in alloc; "SideNames {name}")?)
        }
        Err(SideError::NoMemory) => Err(Stop::NoMemory),
    }
}

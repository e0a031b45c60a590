// The words of command lines.

use crate::stop::Stop;
use crate::{answer, parse};
use cook_top::{Order, Usage, read_words};
use std::alloc::Global;

/// The answer to a case of a command line, if the words are one.
pub fn answer_to(alloc: Global, words: &[&str]) -> Option<Result<String, Stop>> {
    match words {
        ["words", line @ ..] => Some(order_of(alloc, line)),
        _ => None,
    }
}

fn order_of(alloc: Global, line: &[&str]) -> Result<String, Stop> {
    let line = parse::texts(alloc, line)?;
    match read_words(line.as_slice()) {
        Ok(order) => order_told(alloc, order),
        Err(Usage) => Ok(String::from_str(alloc, "usage")?),
    }
}

fn order_told(alloc: Global, order: Order<'_>) -> Result<String, Stop> {
    match order {
        Order::Pack {
            workers,
            rate,
            dir,
            pkg,
        } => {
            let dir = answer::bytes(alloc, dir.as_bytes())?;
            let pkg = answer::bytes(alloc, pkg.as_bytes())?;
            Ok(format!(in alloc; "pack {workers} {rate} {dir} {pkg}")?)
        }
        Order::Restore { workers, pkg, dir } => {
            let pkg = answer::bytes(alloc, pkg.as_bytes())?;
            let dir = answer::bytes(alloc, dir.as_bytes())?;
            Ok(format!(in alloc; "restore {workers} {pkg} {dir}")?)
        }
    }
}

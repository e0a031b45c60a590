//! The files whose length was asked, as they were then.
ghost use Rattle.std.specs.Prelude.{◌≡◌, IfSome, IsOk, None, Some};

use md5::{Digest, Md5};
use std::alloc::{AllocError, Global};
use std::collections::HashMap;
use std::fs;
use std::io::{self, ErrorKind};
use std::os::unix::fs::MetadataExt;

/// What tells that a file is as it was: its length in bytes, and the time of its last change since 1970.
#[derive(Clone, Copy, PartialEq, Eq)]
pub(crate) struct Stamp {
    pub(crate) len: u64,
    seconds: i64,
    nanoseconds: i64,
}

/// The stamp of a plain file, and `None` where there is nothing by that name. Anything else by that name is an error.
pub(crate) fn stamp_of(system: &HostRuntime, name: &str) -> io::Result<Option<Stamp>> {
    match fs::metadata(system, name) {
        Ok(found) if found.is_file() => Ok(Some(Stamp {
            len: found.len(),
            seconds: found.mtime(),
            nanoseconds: found.mtime_nsec(),
        })),
        Ok(_) => Err(ErrorKind::Unsupported.into()),
        Err(error) => match error.kind() {
            ErrorKind::NotFound | ErrorKind::NotADirectory => Ok(None),
            _ => Err(error),
        },
    }
}

/// The stamps of files by the MD5 of their names, so that each takes the same small room.
#[derive(Drop)]
pub(crate) struct Measured {
    stamps: HashMap<u128, Stamp>,
}

fn key_of(name: &str) -> u128 {
    u128::from_be_bytes(Md5::digest(name.as_bytes()))
}

/// An error where a file isn't as it was.
fn compared(before: Stamp, now: Option<Stamp>) -> io::Result<()>
    ensures same { IsOk result → now ≡ Some before }
{
    if now == Some(before) {
        Ok(())
    } else {
        Err(io::Error::other("the file changed since it was measured"))
    }
}

impl Measured {
    pub(crate) fn new(alloc: Global) -> Measured {
        Measured {
            stamps: HashMap::new(alloc),
        }
    }

    /// Keeps a file's stamp in the place of an earlier one.
    pub(crate) fn keep(&mut self, name: &str, stamp: Stamp) -> Result<(), AllocError> {
        self.stamps.insert(key_of(name), stamp)?;
        Ok(())
    }

    /// Looks at a file again. Where its stamp was kept and is another now, or the file is gone, that is an error.
    pub(crate) fn look_again(&self, system: &HostRuntime, name: &str) -> io::Result<()> {
        match self.stamps.get(&key_of(name)) {
            Some(before) => compared(*before, stamp_of(system, name)?),
            None => Ok(()),
        }
    }
}

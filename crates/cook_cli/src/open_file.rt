//! A file of the system that is kept open between calls.
ghost use Rattle.std.specs.Prelude.{◌≡◌, ◌≤◌, ◌↔◌, length, string_bytes, IsTrue, IfOk, OnOk, IfSome};

use std::fs::{File, OpenOptions};
use std::io::{self, ErrorKind};
use std::os::unix::fs::FileExt;

/// An open file, with the name by which it was opened.
#[derive(Drop)]
pub(crate) struct OpenFile {
    pub(crate) name: String,
    pub(crate) file: File,
}

impl OpenFile {
    /// Opens a file. The name is copied first, so that want of memory leaves the disk as it was.
    pub(crate) fn open(system: &HostRuntime, name: &str, how: &OpenOptions) -> io::Result<OpenFile>
        ensures { IfOk result (λ opened. string_bytes opened.name ≡ name.now) }
    {
        let kept = String::from_str(system.alloc(), name)?;
        let file = how.open(system, name)?;
        Ok(OpenFile { name: kept, file })
    }

    pub(crate) fn is_named(&self, name: &str) -> bool
        ensures { IsTrue result ↔ (string_bytes self.now.name ≡ name.now) }
    {
        self.name.as_str() == name
    }
}

/// Fills the buffer from place `at` of a file on, and answers the number of bytes read: fewer than there is room for
/// only where the file ends. An interrupted read is tried again.
fn read_piece<F: FileExt>(file: &F, at: u64, buf: &mut [u8]) -> io::Result<usize>
    ensures { IfOk result (λ count. count ≤ length buf.old) }
{
    let mut count = 0;
    for _ in 0..u64::MAX {
        if count >= buf.len() {
            return Ok(count);
        }
        match file.read_at(&mut buf[count..], at.saturating_add(count as u64)) {
            Ok(0) => return Ok(count),
            Ok(more) => count += more,
            Err(error) if error.kind() == ErrorKind::Interrupted => {}
            Err(error) => return Err(error),
        }
    }
    Err(ErrorKind::TimedOut.into())
}

/// Reads from a file as `read_piece` does. The file stays open for the next read.
pub(crate) fn read(
    system: &HostRuntime,
    slot: &mut Option<OpenFile>,
    name: &str,
    at: u64,
    buf: &mut [u8],
) -> io::Result<usize>
    ensures within { IfOk result (λ count. count ≤ length buf.old) }
    ensures named { OnOk result (IfSome slot.new (λ opened. string_bytes opened.name ≡ name.now)) }
{
    let open = match slot.take().filter(|open| open.is_named(name)) {
        Some(open) => open,
        None => OpenFile::open(system, name, OpenOptions::new().read(true))?,
    };
    let count = read_piece(&open.file, at, buf);
    *slot = Some(open);
    count
}

#[cfg(test)]
mod tests {
    use super::read_piece;
    use crate::tests::is;
    use std::cell::Cell;
    use std::io::{self, ErrorKind};
    use std::os::unix::fs::FileExt;
    use std::test::Fail;

    /// A file that gives one byte at a time, and is interrupted before each.
    #[derive(Drop)]
    struct Dripping {
        bytes: [u8; 3],
        ready: Cell<bool>,
    }

    impl FileExt for Dripping {
        fn read_at(&self, buf: &mut [u8], offset: u64) -> io::Result<usize> {
            let ready = self.ready.get();
            self.ready.set(!ready);
            if !ready {
                return Err(ErrorKind::Interrupted.into());
            }
            if offset >= 3 || buf.is_empty() {
                return Ok(0);
            }
            buf[0] = self.bytes[offset as usize];
            Ok(1)
        }

        fn write_at(&self, _buf: &[u8], _offset: u64) -> io::Result<usize> {
            Err(ErrorKind::Unsupported.into())
        }
    }

    #[test]
    fn a_file_that_gives_little_is_read_to_its_end(rt: HostRuntime) -> Result<(), Fail> {
        let file = Dripping {
            bytes: *b"abc",
            ready: Cell::new(false),
        };
        let mut buf = [0; 2];
        is(&rt, read_piece(&file, 0, &mut buf)?, 2);
        is(&rt, buf, *b"ab");
        is(&rt, read_piece(&file, 2, &mut buf)?, 1);
        is(&rt, buf, *b"cb");
        Ok(())
    }
}

//! The files that were created and not sealed since. Each is kept open until it is sealed, and no other is written.
ghost use Rattle.std.specs.Prelude.{◌≡◌, ◌<◌, ◌≤◌, ◌^◌, ◌↔◌, ◌⊎◌, IfOk, IfErr, OnOk, IsTrue, length};
ghost use Rattle.std.specs.IoError.{error_kind};
ghost use Rattle.cook_cli.specs.Writing.{IsWriting};

use crate::open_file::OpenFile;
use std::fs::{File, OpenOptions};
use std::io::{self, ErrorKind, Write};

/// A file that is being written.
#[derive(Drop)]
pub(crate) struct Unsealed {
    open: OpenFile,
    /// How many bytes it was handed.
    len: u64,
}

/// How sure a sealed file is to be on the disk.
#[derive(Clone, Copy, Debug, PartialEq, Eq)]
pub(crate) enum Sealing {
    /// Each file is on the disk, and its name too.
    OnDisk,
    /// Each file of 1 MiB and more is on the disk. Names and smaller files are left to the system.
    LargeOnDisk,
}

/// The length in bytes from which on a file is large.
const LARGE: u64 = 1 << 20;

impl Sealing {
    /// Whether a file of this length is to be on the disk.
    fn is_synced(self, len: u64) -> bool
        ensures { IsTrue result ↔ ((self ≡ Sealing.OnDisk) ⊎ (2 ^ 20 ≤ len)) }
    {
        self == Sealing::OnDisk || len >= LARGE
    }
}

/// The place of the file of this name. Any other file is an error.
fn place_of(files: &[Unsealed], name: &str) -> io::Result<usize>
    ensures inside { IfOk result (λ place. place < length files.now) }
    ensures named { OnOk result (IsWriting files.now name.now) }
{
    for (place, file) in files.iter().enumerate() {
        if file.open.is_named(name) {
            return Ok(place);
        }
    }
    Err(io::Error::other("this file is not being written"))
}

/// Whether a file of this name is being written.
pub(crate) fn is_writing(files: &[Unsealed], name: &str) -> bool {
    place_of(files, name).is_ok()
}

/// Makes an empty file and opens it for writing. A name that is there, be it a link that leads nowhere, is
/// `AlreadyExists`, and stays as it is. Want of memory leaves the disk as it was.
pub(crate) fn create(
    system: &HostRuntime,
    files: &mut Vec<Unsealed>,
    name: &str,
) -> io::Result<()> {
    files.reserve(1)?;
    let mut how = OpenOptions::new();
    how.write(true).create_new(true);
    let open = OpenFile::open(system, name, &how)?;
    files.push(Unsealed { open, len: 0 })?;
    Ok(())
}

/// Adds all bytes at the end of a file that is being written. A write that takes nothing of them is an error.
pub(crate) fn append(files: &mut [Unsealed], name: &str, bytes: &[u8]) -> io::Result<()>
    ensures ours { OnOk result (IsWriting files.old name.now) }
{
    let place = place_of(files, name)?;
    let written = &mut files[place];
    written.len = written.len.saturating_add(bytes.len() as u64);
    written.open.file.write_all(bytes)
}

/// Closes a file that is being written. Where it is to be on the disk, it waits until the disk holds it whole. A file that
/// the disk refused is written no more.
pub(crate) fn seal(
    system: &HostRuntime,
    files: &mut Vec<Unsealed>,
    name: &str,
    sealing: Sealing,
) -> io::Result<()>
    ensures ours { OnOk result (IsWriting files.old.items name.now) }
{
    let place = place_of(files.as_slice(), name)?;
    let written = files.swap_remove(place);
    sync(system, &written, sealing)?;
    Ok(())
}

/// Waits until the disk holds a file whole, and its name, as far as they are to be there.
fn sync(system: &HostRuntime, written: &Unsealed, sealing: Sealing) -> io::Result<()> {
    if sealing.is_synced(written.len) {
        written.open.file.sync_all()?;
    }
    match sealing {
        Sealing::OnDisk => sync_folder(system, written.open.name.as_str()),
        Sealing::LargeOnDisk => Ok(()),
    }
}

/// The folder in which a name stands.
fn folder_of(name: &str) -> &str {
    match name.rsplit_once('/') {
        None => ".",
        Some(("", _)) => "/",
        Some((folder, _)) => folder,
    }
}

/// Asks the disk to hold the name of a file too. A folder that may not be opened for reading and a file system that can't
/// sync a folder are no fault: the name is left to the system then.
fn sync_folder(system: &HostRuntime, name: &str) -> io::Result<()> {
    let folder = match File::open(system, folder_of(name)) {
        Ok(folder) => folder,
        Err(error) if error.kind() == ErrorKind::PermissionDenied => return Ok(()),
        Err(error) => return Err(error),
    };
    passed_over(folder.sync_all())
}

/// What the sync of a folder gave, but for the errors by which a file system says that it can't do that.
fn passed_over(synced: io::Result<()>) -> io::Result<()>
    ensures { OnOk result (IfErr synced (λ error. (error_kind error ≡ ErrorKind.InvalidInput) ⊎ (error_kind error ≡ ErrorKind.Unsupported))) }
{
    match synced {
        Err(error) => match error.kind() {
            ErrorKind::InvalidInput | ErrorKind::Unsupported => Ok(()),
            _ => Err(error),
        },
        Ok(()) => Ok(()),
    }
}

#[cfg(test)]
mod tests {
    use super::folder_of;
    use crate::tests::is;

    #[test]
    fn the_folder_of_a_name_is_what_stands_before_its_last_slash(rt: HostRuntime) {
        for (name, folder) in [("a", "."), ("/a", "/"), ("a/b", "a"), ("/a/b/c", "/a/b")] {
            is(&rt, folder_of(name), folder);
        }
    }
}

// Where the contents of the files stand in a package, by the names that the side data says.
ghost use Rattle.std.specs.Prelude.{◌≡◌, None, IfOk, OnOk};
ghost use Rattle.std.specs.List.{position};
ghost use Rattle.cook_restore.specs.Contents.{HoldsOver, content_places, held_as, others_of};

use cook_bits::NoMemory;
use matroska_read::FileAt;
use reversal::FileRecord;
use std::alloc::Global;
use std::collections::BTreeMap;

/// Where a content starts in the package, and its length, in bytes.
#[derive(Clone, Copy, Debug, PartialEq, Eq)]
pub struct Content {
    pub at: u64,
    pub len: u64,
}

/// The number of the side data among the attached files: the first of its media type.
pub fn side_number(files: &[FileAt]) -> Option<usize>
    ensures { result ≡ position (λ file. file.side) files.now }
{
    files.iter().position(|file| file.side)
}

// Adds files by their names. Of several with one name the first counts, and it counts before those that are there.
fn add_names<'a>(
    by_name: &mut BTreeMap<&'a [u8], Content>,
    files: &'a [FileAt],
) -> Result<(), NoMemory>
    ensures { OnOk result (HoldsOver (held_as by_name.old) files.now (held_as by_name.new)) }
{
    let mut left = files.len();
    while left > 0 {
        left -= 1;
        let file = &files[left];
        let content = Content {
            at: file.at,
            len: file.len,
        };
        by_name.insert(file.name.as_slice(), content)?;
    }
    Ok(())
}

// The files but the side data, by their names.
fn by_names<'a>(alloc: Global, files: &'a [FileAt]) -> Result<BTreeMap<&'a [u8], Content>, NoMemory>
    ensures { IfOk result (λ by_name. HoldsOver (λ name. None) (others_of files.now) (held_as by_name)) }
{
    let mut by_name = BTreeMap::new(alloc);
    let side = side_number(files).unwrap_or(files.len());
    if side < files.len() {
        add_names(&mut by_name, &files[side + 1..])?;
    }
    add_names(&mut by_name, &files[..side])?;
    Ok(by_name)
}

/// The places of the contents of the records' files: of each the first file of its name but the side data.
pub fn contents_of(
    alloc: Global,
    files: &[FileAt],
    records: &[FileRecord],
) -> Result<Vec<Option<Content>>, NoMemory>
    ensures { IfOk result (λ contents. contents.items ≡ content_places files.now records.now) }
{
    let by_name = by_names(alloc, files)?;
    let mut contents = Vec::with_capacity(alloc, records.len())?;
    for said in records {
        let content = by_name.get(said.name.as_str().as_bytes()).copied();
        contents.push(content)?;
    }
    Ok(contents)
}

// An open package: what a restorer keeps.
ghost use Rattle.std.specs.Prelude.{◌≡◌, ◌<◌, ◌^◌, [], All, length, slice_index_or};
ghost use Rattle.reversal.specs.SideData.{names_of};
ghost use Rattle.cook_restore.specs.Contents.{content_places};
ghost use Rattle.std.proofs.Props.{props};
ghost use Rattle.matroska_read.specs.Inside.{EndsBy};

use crate::contents::Content;
use cook_bits::Name;
use matroska_read::Outline;
use name_tree::NameTree;
use reversal::FileRecord;

/// A file that was given.
#[derive(Clone, Copy, Debug, PartialEq, Eq)]
pub struct FileSum {
    /// The number of its record, from 0.
    pub number: u32,
    /// The length of its content in bytes.
    pub length: u64,
}

/// An open package: what it holds, where its files are to be written, and which of them is the next.
#[derive(Drop)]
pub struct Restorer {
    pub(crate) pkg: Name,
    pub(crate) len: u64,
    pub(crate) outline: Outline,
    pub(crate) records: Vec<FileRecord>,
    pub(crate) contents: Vec<Option<Content>>,
    pub(crate) target: Option<Name>,
    pub(crate) number: u32,
    pub(crate) ended: bool,
    // the names of the records, and the folders that were made
    pub(crate) names: NameTree,
    pub(crate) buffer: Vec<u8>,
    ghost few: { length records.items < 2 ^ 32 },
    ghost within: { All (EndsBy len) outline.files } by { Prim.hlevel props },
    ghost placed: { contents.items ≡ content_places outline.files records.items },
    ghost held: { names.names ≡ names_of records.items },
    ghost room: { 0 < length buffer.items },
}

impl Restorer {
    /// What the side data says of each file, in order of names. It takes no memory.
    pub fn entries(&self) -> &[FileRecord]
        ensures { result.now ≡ self.now.records.items }
    {
        self.records.as_slice()
    }

    /// The name of the file of a number. It takes no memory.
    pub fn into_name(self, number: u32) -> Name
        requires { number < length self.records.items }
        ensures { result ≡ slice_index_or (names_of self.records.items) number [] }
    {
        let Restorer { mut records, .. } = self;
        let FileRecord { name, .. } = records.swap_remove(number as usize);
        name
    }
}

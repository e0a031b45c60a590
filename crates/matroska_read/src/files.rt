ghost use Rattle.std.specs.Prelude.{◌≡◌, ◌++◌, ◌∷◌, [], ℕ, OnOk};
ghost use Rattle.matroska_read.specs.Outline.{places_seen};
ghost use Rattle.matroska_read.specs.Inside.{KeepsWithin, SegmentEndsBy};

use crate::parts::SegmentSeen;
use crate::tracks::{BlockAt, Blocks, Track, Tracks};
use cook_bits::{Bytes, NoMemory};
use std::alloc::Global;
use std::marker::Model;

/// A file that is attached to a package.
#[derive(Debug, Drop)]
pub struct FileAt {
    /// The bytes of its FileName.
    pub name: Bytes,
    /// Whether it is the side data: its FileMediaType is `application/x-cook-rev`, byte for byte.
    pub side: bool,
    /// Where its content starts in the package, in bytes.
    pub at: u64,
    /// The length of its content, in bytes.
    pub len: u64,
}

/// The files of an Attachments, as far as they were read. Contracts see the list of them.
#[derive(Debug, Drop)]
pub struct AttachedFiles {
    files: Vec<FileAt>,
}

impl Model for AttachedFiles {
    ghost use Rattle.std.specs.Prelude.{List};
    ghost use Rattle.matroska_read.specs.declared.files.FileAt.{FileAt};

    ghost Value = { List FileAt };

    ghost view = { λ attached. attached.files.items };
}

impl AttachedFiles {
    /// No file. It takes no memory until files are added.
    pub fn new(alloc: Global) -> AttachedFiles
        ensures { result ≡ [] }
    {
        AttachedFiles {
            files: Vec::new(alloc),
        }
    }

    /// Adds a file at the end.
    pub fn push(&mut self, file: FileAt) -> Result<(), NoMemory>
        ensures { OnOk result (self.new ≡ self.old ++ file ∷ []) }
    {
        self.files.push(file)?;
        Ok(())
    }
}

/// What a package holds, by the places of its bytes: its tracks, its blocks and the files that are attached, each in order of
/// place. Contracts see the three lists.
#[derive(Debug, Drop)]
pub struct Outline {
    tracks: Vec<Track>,
    blocks: Vec<BlockAt>,
    files: Vec<FileAt>,
}

impl Model for Outline {
    ghost use Rattle.matroska_read.specs.Places.{Places};

    ghost Value = { Places };

    ghost view = { λ o. record { tracks = o.tracks.items; blocks = o.blocks.items; files = o.files.items } };
}

impl Outline {
    /// The outline of a Segment of which all was seen. It takes no memory.
    #[tactic(auto, using(crate::proofs::FileLaws::ends_laws))]
    pub(crate) fn new(alloc: Global, seen: SegmentSeen) -> Outline
        ensures exact { result ≡ places_seen seen }
        ensures within { (end : ℕ) → SegmentEndsBy end seen → KeepsWithin end result }
    {
        let SegmentSeen {
            tracks,
            blocks,
            files,
            ..
        } = seen;
        let attached = match files {
            Some(attached) => attached,
            None => AttachedFiles::new(alloc),
        };
        let Tracks { tracks } = tracks;
        let Blocks { blocks } = blocks;
        let AttachedFiles { files } = attached;
        Outline {
            tracks,
            blocks,
            files,
        }
    }

    /// The tracks, in order of place. It takes no memory.
    pub fn tracks(&self) -> &[Track]
        ensures { result.now ≡ self.now.tracks }
    {
        self.tracks.as_slice()
    }

    /// The blocks of all tracks, in order of place. It takes no memory.
    pub fn blocks(&self) -> &[BlockAt]
        ensures { result.now ≡ self.now.blocks }
    {
        self.blocks.as_slice()
    }

    /// The attached files, in order of place. It takes no memory.
    pub fn files(&self) -> &[FileAt]
        ensures { result.now ≡ self.now.files }
    {
        self.files.as_slice()
    }
}

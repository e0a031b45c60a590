ghost use Rattle.std.specs.Prelude.{◌≡◌, ◌++◌, ◌∷◌, [], OnOk};
ghost use Rattle.matroska_read.specs.Tracks.{has_number};

use cook_bits::{Bytes, NoMemory};
use std::alloc::Global;
use std::marker::Model;

/// The codec of a track.
#[derive(Clone, Copy, Debug, PartialEq, Eq)]
pub enum Codec {
    /// Pictures, by FFV1.
    Ffv1,
    /// Sound, by FLAC.
    Flac,
}

/// A track of a package.
#[derive(Debug, Drop)]
pub struct Track {
    /// Its TrackNumber.
    pub number: u64,
    /// Its CodecID, as one of those that are read.
    pub codec: Codec,
    /// The bytes of its CodecPrivate.
    pub private: Bytes,
    /// The width of its pictures, in pixels.
    pub width: u64,
    /// The height of its pictures, in pixels.
    pub height: u64,
}

/// A block of a track.
#[derive(Clone, Copy, Debug, PartialEq, Eq)]
pub struct BlockAt {
    /// The number of its track.
    pub track: u64,
    /// Where its body starts in the package, in bytes.
    pub at: u64,
    /// The length of its body, in bytes.
    pub len: u64,
    /// Whether a checksum that covers it doesn't hold.
    pub damaged: bool,
}

/// The tracks of a file, as far as they were read. Contracts see the list of them.
#[derive(Debug, Drop)]
pub struct Tracks {
    pub(crate) tracks: Vec<Track>,
}

impl Model for Tracks {
    ghost use Rattle.std.specs.Prelude.{List};
    ghost use Rattle.matroska_read.specs.declared.tracks.Track.{Track};

    ghost Value = { List Track };

    ghost view = { λ listed. listed.tracks.items };
}

impl Tracks {
    /// No track. It takes no memory until tracks are added.
    pub fn new(alloc: Global) -> Tracks
        ensures { result ≡ [] }
    {
        Tracks {
            tracks: Vec::new(alloc),
        }
    }

    /// Adds a track at the end.
    pub fn push(&mut self, track: Track) -> Result<(), NoMemory>
        ensures { OnOk result (self.new ≡ self.old ++ track ∷ []) }
    {
        self.tracks.push(track)?;
        Ok(())
    }

    /// Whether a track has a number.
    #[tactic(auto, unfolding(crate::specs::Tracks::has_number))]
    pub fn has_number(&self, number: u64) -> bool
        ensures { result ≡ has_number number self.now }
    {
        self.tracks.iter().any(|track| track.number == number)
    }
}

/// The blocks of a file, as far as they were read. Contracts see the list of them.
#[derive(Debug, Drop)]
pub struct Blocks {
    pub(crate) blocks: Vec<BlockAt>,
}

impl Model for Blocks {
    ghost use Rattle.std.specs.Prelude.{List};
    ghost use Rattle.matroska_read.specs.declared.tracks.BlockAt.{BlockAt};

    ghost Value = { List BlockAt };

    ghost view = { λ seen. seen.blocks.items };
}

impl Blocks {
    /// No block. It takes no memory until blocks are added.
    pub fn new(alloc: Global) -> Blocks
        ensures { result ≡ [] }
    {
        Blocks {
            blocks: Vec::new(alloc),
        }
    }

    /// Adds a block at the end.
    pub fn push(&mut self, block: BlockAt) -> Result<(), NoMemory>
        ensures { OnOk result (self.new ≡ self.old ++ block ∷ []) }
    {
        self.blocks.push(block)?;
        Ok(())
    }
}

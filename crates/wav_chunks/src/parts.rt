/// What a chunk is to a reader of sound.
#[derive(Clone, Copy, Debug, PartialEq, Eq)]
pub enum ChunkKind {
    /// `fmt `: how the samples are kept.
    Format,
    /// `data`: the samples.
    Data,
    /// Any other, which is passed over.
    Other,
}

/// A chunk of a file, by places of the file.
#[derive(Clone, Copy, Debug, PartialEq, Eq)]
pub struct Chunk {
    pub kind: ChunkKind,
    /// Where its content starts.
    pub start: u64,
    /// How many bytes its content has, as it says.
    pub size: u64,
    /// Where the walk goes on.
    pub behind: u64,
}

/// The fields of a `fmt ` chunk that are read.
#[derive(Clone, Copy, Debug, PartialEq, Eq)]
pub struct Fields {
    /// Whether the tag is the extensible one, and the content too short for it.
    pub is_short: bool,
    /// Whether the samples are PCM.
    pub is_pcm: bool,
    pub channels: u16,
    pub rate: u32,
    pub align: u16,
    pub bits: u16,
}

/// How the samples of a file are kept.
#[derive(Clone, Copy, Debug, PartialEq, Eq)]
pub struct Format {
    pub channels: u8,
    pub bits: u8,
    pub rate: u32,
}

/// A `data` chunk and the format that came before it.
#[derive(Clone, Copy, Debug, PartialEq, Eq)]
pub struct Sound {
    pub format: Format,
    /// Where the samples start.
    pub start: u64,
    /// How many bytes there are, as the chunk says.
    pub size: u64,
}

/// What was seen of a file's chunks.
#[derive(Clone, Copy, Debug, PartialEq, Eq)]
pub struct WaveSeen {
    /// Of the first `fmt ` chunk.
    pub format: Option<Format>,
    /// Of the first `data` chunk, with which the walk ends.
    pub sound: Option<Sound>,
}

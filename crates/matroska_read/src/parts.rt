use crate::files::AttachedFiles;
use crate::tracks::{BlockAt, Blocks, Tracks};

/// An element of a file, by places of the file.
#[derive(Clone, Copy, Debug, PartialEq, Eq)]
pub struct Element {
    /// Where its first byte stands.
    pub place: u64,
    /// Its identifier, as a big-endian number with its marker kept.
    pub id: u32,
    /// Where its content starts.
    pub start: u64,
    /// Where it ends: the place behind its last byte.
    pub end: u64,
}

/// Which numbers an Unsigned Integer Element of the EBML header may hold.
#[derive(Clone, Copy, Debug, PartialEq, Eq)]
pub struct Bounds {
    /// What an empty element says.
    pub when_empty: u64,
    /// The least number.
    pub least: u64,
    /// The largest number.
    pub most: u64,
}

/// The content of an element, from one place of the file up to another.
#[derive(Clone, Copy, Debug, PartialEq, Eq)]
pub struct Span {
    pub start: u64,
    pub end: u64,
}

/// What was seen of an AttachedFile: of each child the first.
#[derive(Clone, Copy, Debug, PartialEq, Eq)]
pub struct Fields {
    pub name: Option<Span>,
    pub media_type: Option<Span>,
    pub content: Option<Span>,
}

/// What was seen of the EBML header's children.
#[derive(Clone, Copy, Debug, PartialEq, Eq)]
pub struct HeaderSeen {
    /// Whether a DocType was seen.
    pub doc_type: bool,
}

/// What was seen of a Video's children: of each the first.
#[derive(Clone, Copy, Debug, PartialEq, Eq)]
pub struct VideoSeen {
    /// PixelWidth.
    pub width: Option<u64>,
    /// PixelHeight.
    pub height: Option<u64>,
}

/// What was seen of a TrackEntry's children: of each the first.
#[derive(Clone, Copy, Debug, PartialEq, Eq)]
pub struct EntrySeen {
    /// TrackNumber.
    pub number: Option<u64>,
    /// CodecID.
    pub codec: Option<Span>,
    /// CodecPrivate.
    pub private: Option<Span>,
    /// Video.
    pub video: Option<VideoSeen>,
    /// Whether ContentEncodings were seen.
    pub encoded: bool,
}

/// The head of a block, before its body.
#[derive(Clone, Copy, Debug, PartialEq, Eq)]
pub struct BlockHead {
    /// The number of its track.
    pub track: u64,
    /// The head's length, in bytes.
    pub len: usize,
}

/// What was seen of a Cluster's children.
#[derive(Debug, Drop)]
pub struct ClusterSeen {
    /// The tracks that were listed before it.
    pub tracks: Tracks,
    /// Whether a child was seen.
    pub begun: bool,
    /// The content of the CRC-32 of four bytes that it begins with, where it does.
    pub checksum: Option<Span>,
    /// Its first block.
    pub block: Option<BlockAt>,
    /// Whether it has a second block, or a BlockGroup.
    pub faulty: bool,
}

/// What was seen of the Segment's children.
#[derive(Debug, Drop)]
pub struct SegmentSeen {
    /// Whether Tracks were seen.
    pub listed: bool,
    /// The tracks of its Tracks.
    pub tracks: Tracks,
    /// The blocks of its Clusters.
    pub blocks: Blocks,
    /// The files of its Attachments, where those were seen.
    pub files: Option<AttachedFiles>,
}

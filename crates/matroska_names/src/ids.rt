//! The identifiers of elements, each with its marker, by the element that holds them. Only what a package has, or what a
//! reader of packages tells apart, is listed.

/// The EBML header (RFC 8794, section 11.2.1).
pub const EBML: u32 = 0x1A45DFA3;

/// EBMLVersion, of the EBML header (RFC 8794, section 11.2.2).
pub const EBML_VERSION: u32 = 0x4286;

/// EBMLReadVersion, of the EBML header (RFC 8794, section 11.2.3).
pub const EBML_READ_VERSION: u32 = 0x42F7;

/// EBMLMaxIDLength, of the EBML header (RFC 8794, section 11.2.4).
pub const EBML_MAX_ID_LENGTH: u32 = 0x42F2;

/// EBMLMaxSizeLength, of the EBML header (RFC 8794, section 11.2.5).
pub const EBML_MAX_SIZE_LENGTH: u32 = 0x42F3;

/// DocType, of the EBML header (RFC 8794, section 11.2.6).
pub const DOC_TYPE: u32 = 0x4282;

/// DocTypeVersion, of the EBML header (RFC 8794, section 11.2.7).
pub const DOC_TYPE_VERSION: u32 = 0x4287;

/// DocTypeReadVersion, of the EBML header (RFC 8794, section 11.2.8).
pub const DOC_TYPE_READ_VERSION: u32 = 0x4285;

/// CRC-32, of any parent: of its other bytes, little-endian (RFC 8794, section 11.3.1).
pub const CRC_32: u32 = 0xBF;

/// The Segment (RFC 9559, section 5.1).
pub const SEGMENT: u32 = 0x18538067;

/// Info, of the Segment (RFC 9559, section 5.1.2).
pub const INFO: u32 = 0x1549A966;

/// TimestampScale in nanoseconds, of Info (RFC 9559, section 5.1.2).
pub const TIMESTAMP_SCALE: u32 = 0x2AD7B1;

/// MuxingApp, of Info (RFC 9559, section 5.1.2).
pub const MUXING_APP: u32 = 0x4D80;

/// WritingApp, of Info (RFC 9559, section 5.1.2).
pub const WRITING_APP: u32 = 0x5741;

/// Cluster, of the Segment (RFC 9559, section 5.1.3).
pub const CLUSTER: u32 = 0x1F43B675;

/// Timestamp in ticks of the TimestampScale, of a Cluster (RFC 9559, section 5.1.3).
pub const TIMESTAMP: u32 = 0xE7;

/// SimpleBlock, of a Cluster (RFC 9559, section 5.1.3).
pub const SIMPLE_BLOCK: u32 = 0xA3;

/// BlockGroup, of a Cluster (RFC 9559, section 5.1.3).
pub const BLOCK_GROUP: u32 = 0xA0;

/// Tracks, of the Segment (RFC 9559, section 5.1.4).
pub const TRACKS: u32 = 0x1654AE6B;

/// TrackEntry, of Tracks (RFC 9559, section 5.1.4.1).
pub const TRACK_ENTRY: u32 = 0xAE;

/// TrackNumber, of a TrackEntry (RFC 9559, section 5.1.4.1).
pub const TRACK_NUMBER: u32 = 0xD7;

/// TrackUID, of a TrackEntry (RFC 9559, section 5.1.4.1).
pub const TRACK_UID: u32 = 0x73C5;

/// TrackType, of a TrackEntry (RFC 9559, section 5.1.4.1).
pub const TRACK_TYPE: u32 = 0x83;

/// FlagLacing, of a TrackEntry (RFC 9559, section 5.1.4.1).
pub const FLAG_LACING: u32 = 0x9C;

/// DefaultDuration of a frame in nanoseconds, of a TrackEntry (RFC 9559, section 5.1.4.1).
pub const DEFAULT_DURATION: u32 = 0x23E383;

/// CodecID, of a TrackEntry (RFC 9559, section 5.1.4.1).
pub const CODEC_ID: u32 = 0x86;

/// CodecPrivate, of a TrackEntry (RFC 9559, section 5.1.4.1).
pub const CODEC_PRIVATE: u32 = 0x63A2;

/// ContentEncodings, of a TrackEntry (RFC 9559, section 5.1.4.1).
pub const CONTENT_ENCODINGS: u32 = 0x6D80;

/// Video, of a TrackEntry (RFC 9559, section 5.1.4.1).
pub const VIDEO: u32 = 0xE0;

/// PixelWidth, of Video (RFC 9559, section 5.1.4.1).
pub const PIXEL_WIDTH: u32 = 0xB0;

/// PixelHeight, of Video (RFC 9559, section 5.1.4.1).
pub const PIXEL_HEIGHT: u32 = 0xBA;

/// Audio, of a TrackEntry (RFC 9559, section 5.1.4.1).
pub const AUDIO: u32 = 0xE1;

/// SamplingFrequency in hertz, of Audio (RFC 9559, section 5.1.4.1).
pub const SAMPLING_FREQUENCY: u32 = 0xB5;

/// Channels, of Audio (RFC 9559, section 5.1.4.1).
pub const CHANNELS: u32 = 0x9F;

/// BitDepth, of Audio (RFC 9559, section 5.1.4.1).
pub const BIT_DEPTH: u32 = 0x6264;

/// Attachments, of the Segment (RFC 9559, section 5.1.6).
pub const ATTACHMENTS: u32 = 0x1941A469;

/// AttachedFile, of the Attachments (RFC 9559, section 5.1.6.1).
pub const ATTACHED_FILE: u32 = 0x61A7;

/// FileName, of an AttachedFile (RFC 9559, section 5.1.6.1).
pub const FILE_NAME: u32 = 0x466E;

/// FileMediaType, of an AttachedFile (RFC 9559, section 5.1.6.1).
pub const FILE_MEDIA_TYPE: u32 = 0x4660;

/// FileData, of an AttachedFile (RFC 9559, section 5.1.6.1).
pub const FILE_DATA: u32 = 0x465C;

/// FileUID, of an AttachedFile (RFC 9559, section 5.1.6.1).
pub const FILE_UID: u32 = 0x46AE;

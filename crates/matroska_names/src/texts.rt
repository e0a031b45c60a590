//! The texts of a package.

/// The DocType of Matroska (RFC 9559).
pub const MATROSKA: &str = "matroska";

/// What wrote a package: its MuxingApp and its WritingApp.
pub const APP: &str = "cook 1";

/// The CodecID of a film's track, which is FFV1 (RFC 9043).
pub const FFV1_CODEC: &str = "V_FFV1";

/// The CodecID of a sound's track, which is FLAC (RFC 9639).
pub const FLAC_CODEC: &str = "A_FLAC";

/// The media type of a file.
pub const OTHER_MEDIA_TYPE: &str = "application/octet-stream";

/// The media type of the side data.
pub const SIDE_MEDIA_TYPE: &str = "application/x-cook-rev";

/// The name of the side data.
pub const SIDE_NAME: &str = "cook.rev";

use cook_bits::Bytes;
use flac_frame::StreamInfo;

/// A track, as it is listed.
#[derive(Debug, Drop)]
pub enum TrackOut {
    /// A film, which is coded by FFV1 (RFC 9043).
    Video {
        /// The configuration record of its frames.
        private: Bytes,
        /// Frames a second, at least 1.
        rate: u32,
        /// The width of a frame in pixels.
        width: u32,
        /// The height of a frame in pixels.
        height: u32,
    },
    /// A sound, which is coded by FLAC (RFC 9639).
    Audio {
        /// The parameters of its stream.
        info: StreamInfo,
    },
}

use thiserror::Error;

/// Why bytes are no frame: what is met first in reading them in order (RFC 9639, section 9).
#[derive(Clone, Copy, Debug, PartialEq, Eq, Error)]
pub enum FlacWhy {
    /// The bytes end inside a field.
    #[error("bytes end early")]
    Short,
    /// The frame doesn't begin with the fifteen bits of the sync code.
    #[error("no sync code")]
    Sync,
    /// A reserved or refused code, a malformed coded number, other channels or another depth than the stream's, or a
    /// block that is larger than the stream's largest or than the one that was handed in.
    #[error("bad frame header")]
    Header,
    /// The header's CRC-8 doesn't agree.
    #[error("bad CRC of the frame header")]
    HeaderCrc,
    /// A first bit that is set, an unknown kind, as many wasted bits as the depth has, an order that isn't below the
    /// block's size, or a refused precision or shift.
    #[error("bad subframe")]
    Subframe,
    /// An unknown method, a partition order that doesn't fit the block, or a residual of more than 32 bits.
    #[error("bad residual")]
    Residual,
    /// A sample outside its depth.
    #[error("sample outside its depth")]
    Range,
    /// The frame's CRC-16 doesn't agree.
    #[error("bad CRC of the frame")]
    FrameCrc,
    /// Bytes stand behind the frame.
    #[error("bytes behind the frame")]
    Long,
}

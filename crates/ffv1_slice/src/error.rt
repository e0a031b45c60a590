use thiserror::Error;

/// Why the bytes of a slice are refused: what their reading meets first.
#[derive(Clone, Copy, Debug, PartialEq, Eq, Error)]
pub enum SliceWhy {
    /// The first byte is 255, with which no coded bytes begin.
    #[error("bad start")]
    BadStart,
    /// The keyframe bit is 0.
    #[error("no key frame")]
    NotKey,
    /// The exponent of a symbol passes 30.
    #[error("bad symbol")]
    BadSymbol,
    /// The cells pass the grid, or a set isn't there.
    #[error("bad slice header")]
    SliceHeader,
    /// A colour of a pixel leaves its bits.
    #[error("sample out of range")]
    SampleRange,
}

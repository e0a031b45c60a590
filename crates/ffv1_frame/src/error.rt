use ffv1_slice::SliceWhy;
use thiserror::Error;

/// Why the bytes of a frame are refused: the first fault. Footers are tested from the frame's end, and then the headers of
/// all slices in order.
#[derive(Clone, Copy, Debug, PartialEq, Eq, Error)]
pub enum FrameWhy {
    /// There are no bytes, or fewer than a footer has.
    #[error("short frame")]
    FrameShort,
    /// A footer tells a slice of no bytes, or of more than stand before it, or a slice too many.
    #[error("bad slice size")]
    SliceSize,
    /// The CRC of a slice isn't 0.
    #[error("bad slice CRC")]
    SliceCrc,
    /// The header of a slice is refused.
    #[error("bad slice header")]
    Head(SliceWhy),
    /// The slices don't cover each cell of the grid exactly once.
    #[error("bad slice grid")]
    SliceGrid,
}

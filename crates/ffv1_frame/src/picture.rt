use crate::FrameWhy;
use ffv1_slice::SliceWhy;
use thiserror::Error;

/// Why the bytes of a frame mean no picture: the first fault. It is that of the frame, or else of the first slice in order
/// that codes no tile.
#[derive(Clone, Copy, Debug, PartialEq, Eq, Error)]
pub enum PictureWhy {
    /// The frame can't be cut.
    #[error("bad frame")]
    Frame(FrameWhy),
    /// The slice with this number, counted from 0, codes no tile.
    #[error("bad slice")]
    Slice(u32, SliceWhy),
}

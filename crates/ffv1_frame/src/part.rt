// The slices of a frame, where its footers cut them off.

use arrayvec::ArrayVec;
use ffv1_slice::SliceHead;

/// The most slices of a frame.
pub(crate) const MOST_SLICES: usize = 1024;

/// The head of a slice that isn't read yet.
pub(crate) const NO_HEAD: SliceHead = SliceHead {
    x: 0,
    y: 0,
    columns: 0,
    rows: 0,
    indices: [0, 0],
};

/// A slice of a frame: where its coded bytes stand there, and its head.
#[derive(Clone, Copy, Debug, PartialEq, Eq)]
pub struct Part {
    /// The place of its first byte.
    pub at: usize,
    /// Its coded bytes, without the footer.
    pub len: usize,
    /// The cells that it covers, and its sets of quantization tables.
    pub head: SliceHead,
}

impl Default for Part {
    fn default() -> Part {
        Part {
            at: 0,
            len: 0,
            head: NO_HEAD,
        }
    }
}

/// The slices of a frame in order, 1,024 at most. It has about 40 KB and takes no memory: make it once.
pub type Parts = ArrayVec<Part, 1024>;

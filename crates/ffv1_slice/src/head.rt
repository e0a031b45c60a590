/// The header of a slice (RFC 9043, section 4.6, "Slice Header"): which cells of the grid it covers, and its sets of
/// quantization tables.
#[derive(Clone, Copy, Debug, PartialEq, Eq)]
pub struct SliceHead {
    /// The first column of cells, counted from 0.
    pub x: u32,
    /// The first row of cells, counted from 0.
    pub y: u32,
    /// How many columns of cells.
    pub columns: u32,
    /// How many rows of cells.
    pub rows: u32,
    /// The set for luma, and the one for both differences of colours.
    pub indices: [u32; 2],
}

/// How the image of a DPX file lies: one element of red, green and blue samples, line after line.
#[derive(Clone, Copy, Debug, PartialEq, Eq)]
pub struct Layout {
    /// Whether the numbers of the file are big-endian.
    pub big: bool,
    /// Bits of a sample: 8, 10, 12 or 16.
    pub bits: u8,
    /// Pixels of a line.
    pub width: u32,
    /// Lines of the image.
    pub height: u32,
    /// Bytes before the image.
    pub head_len: u32,
    /// Bytes from the start of a line to the start of the next.
    pub stride: u32,
}

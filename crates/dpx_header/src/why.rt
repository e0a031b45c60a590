use thiserror::Error;

/// Why a file is no frame that can be taken apart: the first rule that its header breaks, in the
/// order in which the rules are tried.
#[derive(Clone, Copy, Debug, PartialEq, Eq, Error)]
pub enum DpxWhy {
    /// The file has fewer than 1,664 bytes, the length of the generic header.
    #[error("Short")]
    Short,
    /// It begins with the magic number in neither byte order.
    #[error("Magic")]
    Magic,
    /// The offset to the image is below 1,664, or past the file's end.
    #[error("Offset")]
    Offset,
    /// There isn't exactly one image element.
    #[error("Elements")]
    Elements,
    /// Width or height is outside 1 to 16,384, or there are more than 67,108,864 pixels.
    #[error("Size")]
    Size,
    /// The element isn't RGB (descriptor 50).
    #[error("Descriptor")]
    Descriptor,
    /// The bit depth isn't 8, 10, 12 or 16.
    #[error("Depth")]
    Depth,
    /// Samples of 10 or 12 bits aren't filled by method A (packing 1); or, at 8 or 16 bits, the
    /// packing is neither 0 nor 1.
    #[error("Packing")]
    Packing,
    /// The element is encoded.
    #[error("Encoding")]
    Encoding,
    /// The lines are said to have padding of their own.
    #[error("LinePadding")]
    LinePadding,
    /// The file ends before its last line does.
    #[error("Truncated")]
    Truncated,
}

/// The size of an element's content (RFC 8794, section 6).
#[derive(Clone, Copy, Debug, PartialEq, Eq)]
pub enum Size {
    /// So many bytes.
    Known(u64),
    /// Not told: the bits of the size are all ones.
    Unknown,
}

/// What an element begins with: its identifier and its size.
#[derive(Clone, Copy, Debug, PartialEq, Eq)]
pub struct Head {
    /// The identifier, as a big-endian number with its marker kept.
    pub id: u32,
    /// The size of the content, in bytes.
    pub size: Size,
    /// The length of the head itself, in bytes.
    pub len: usize,
}

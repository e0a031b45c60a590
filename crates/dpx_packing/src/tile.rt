/// A rectangle of pixels of a picture.
#[derive(Clone, Copy, Debug, PartialEq, Eq)]
pub struct Tile {
    /// Pixels left of it.
    pub x: u32,
    /// Lines above it.
    pub y: u32,
    /// Pixels of each of its lines.
    pub width: u32,
    /// Its lines.
    pub height: u32,
}

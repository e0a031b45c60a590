/// What each share calls once before its first tile. A test can see by it that shares run beside one another.
pub trait Gate {
    /// The share with this number is about to run its first tile.
    fn pass(&self, slot: u32);
}

/// A gate that is always open.
#[derive(Clone, Copy, Debug, PartialEq, Eq)]
pub struct OpenGate;

impl Gate for OpenGate {
    /// Does nothing.
    fn pass(&self, _slot: u32) {}
}

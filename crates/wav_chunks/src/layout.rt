/// How the samples of a WAVE file lie: blocks one after the other, and in each a sample of every channel.
#[derive(Clone, Copy, Debug, PartialEq, Eq)]
pub struct WavLayout {
    /// Bytes before the first block.
    pub head_len: u64,
    /// Samples of a block.
    pub channels: u8,
    /// Bits of a sample: 8, 16 or 24.
    pub bits: u8,
    /// Blocks of a second.
    pub rate: u32,
    /// How many blocks there are.
    pub blocks: u64,
}

// The parameters of a stream.

ghost use Rattle.std.specs.Prelude.{◌≡◌};
ghost use Rattle.flac_frame.specs.StreamInfo.{IsWritable, IsReadable, info_bytes, fields_of, info_read, is_accepted, is_depth, packed};
ghost use Rattle.std.specs.Prelude.{IfOk, IsTrue, ◌↔◌, slice_range};
ghost use Rattle.byteorder.specs.Endian.{big_number};

use byteorder::{BigEndian, ByteOrder};

/// The parameters of a stream (RFC 9639, section 8.2).
#[derive(Clone, Copy, Debug, Drop, PartialEq, Eq)]
pub struct StreamInfo {
    /// The samples of the smallest block, but for the last one.
    pub min_block: u16,
    /// The samples of the largest block.
    pub max_block: u16,
    /// The bytes of the smallest frame, or 0 where they aren't known; 24 bits.
    pub min_frame: u32,
    /// The bytes of the largest frame, or 0 where they aren't known; 24 bits.
    pub max_frame: u32,
    /// Samples a second; 20 bits.
    pub rate: u32,
    /// How many channels there are, 1 to 8.
    pub channels: u8,
    /// The bits of a sample: 8, 16 or 24.
    pub bits: u8,
    /// The samples of a channel, or 0 where they aren't known; 36 bits.
    pub total: u64,
    /// The MD5 of the samples, or zeros.
    pub md5: [u8; 16],
}

/// The bytes hold no parameters that are read here: there is no rate, the bits aren't 8, 16 or 24, or a block has fewer
/// than 16 samples.
#[derive(Clone, Copy, Debug, Drop, PartialEq, Eq)]
pub struct InfoBad;

// The rate, the channels, the bits and the samples as one number.
#[tactic(auto, unfolding(crate::specs::StreamInfo::packed))]
fn packed(info: &StreamInfo) -> u64
    requires { IsWritable info.now }
    ensures { result ≡ packed info.now }
{
    (u64::from(info.rate) << 44)
        + ((u64::from(info.channels) - 1) << 41)
        + ((u64::from(info.bits) - 1) << 36)
        + info.total
}

fn is_depth(bits: u8) -> bool
    ensures { result ≡ is_depth bits }
{
    bits == 8 || bits == 16 || bits == 24
}

#[tactic(auto, unfolding(crate::specs::StreamInfo::is_accepted))]
fn is_accepted(info: &StreamInfo) -> bool
    ensures { result ≡ is_accepted info.now }
{
    info.rate >= 1 && is_depth(info.bits) && info.max_block >= 16
}

impl StreamInfo {
    /// Writes the 34 bytes. Each field fits its bits. It takes no memory.
    #[tactic(auto, unfolding(crate::specs::StreamInfo::info_bytes))]
    pub fn write(&self, out: &mut [u8; 34])
        requires { IsWritable self.now }
        ensures { out.new ≡ info_bytes self.now }
    {
        let (min_block, rest) = out.split_at_mut(2);
        let (max_block, rest) = rest.split_at_mut(2);
        let (min_frame, rest) = rest.split_at_mut(3);
        let (max_frame, rest) = rest.split_at_mut(3);
        let (numbers, md5) = rest.split_at_mut(8);
        BigEndian::write_u16(min_block, self.min_block);
        BigEndian::write_u16(max_block, self.max_block);
        BigEndian::write_u24(min_frame, self.min_frame);
        BigEndian::write_u24(max_frame, self.max_frame);
        BigEndian::write_u64(numbers, packed(self));
        md5.copy_from_slice(&self.md5);
    }

    /// The fields of the 34 bytes. `InfoBad` exactly where the rate is 0, the bits aren't 8, 16 or 24, or the largest
    /// block has fewer than 16 samples. It takes no memory.
    #[tactic(auto, unfolding(crate::specs::StreamInfo::info_read))]
    pub fn read(bytes: &[u8; 34]) -> Result<StreamInfo, InfoBad>
        ensures exact { result ≡ info_read bytes.now }
        ensures readable { IfOk result (λ info. IsReadable info) }
    {
        let info = fields_of(bytes);
        if !is_accepted(&info) {
            return Err(InfoBad);
        }
        Ok(info)
    }
}

// The fields, whatever they are.
#[tactic(auto, unfolding(crate::specs::StreamInfo::fields_of))]
fn fields_of(bytes: &[u8; 34]) -> StreamInfo
    ensures { result ≡ fields_of bytes.now }
{
    let numbers = BigEndian::read_u64(&bytes[10..18]);
    let mut md5 = [0; 16];
    md5.copy_from_slice(&bytes[18..34]);
    StreamInfo {
        min_block: BigEndian::read_u16(&bytes[0..2]),
        max_block: BigEndian::read_u16(&bytes[2..4]),
        min_frame: BigEndian::read_u24(&bytes[4..7]),
        max_frame: BigEndian::read_u24(&bytes[7..10]),
        rate: (numbers >> 44) as u32,
        channels: ((numbers >> 41) % 8 + 1) as u8,
        bits: ((numbers >> 36) % 32 + 1) as u8,
        total: numbers % (1 << 36),
        md5,
    }
}

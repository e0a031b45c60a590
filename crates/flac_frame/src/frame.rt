// A whole frame.

ghost use Rattle.std.specs.Prelude.{◌≡◌};
ghost use Rattle.flac_frame.specs.Reading.{Passes, Gives};
ghost use Rattle.flac_frame.specs.StreamInfo.{IsReadable};
ghost use Rattle.flac_frame.specs.Samples.{channels_of};
ghost use Rattle.flac_frame.specs.Frame as whole;

use crate::header::frame_header;
use crate::reading::expected;
use crate::{Block, FlacWhy, StreamInfo};
use cook_bits::{BitReader, crc8, crc16};

// The bytes before the whole bytes that are left.
fn bytes_before<'a>(bytes: &'a [u8], reader: &BitReader<'_>) -> &'a [u8]
    ensures { result.now ≡ whole.bytes_before bytes.now reader.now }
{
    &bytes[..bytes.len().saturating_sub(reader.bytes_left())]
}

#[tactic(auto, unfolding(crate::specs::Frame::header_end_at))]
fn header_end(bytes: &[u8], reader: &mut BitReader<'_>) -> Result<(), FlacWhy>
    ensures { Passes result reader.new (whole.header_end_at bytes.now reader.old) }
{
    let crc = crc8(bytes_before(bytes, reader));
    expected(reader, 8, u32::from(crc), FlacWhy::HeaderCrc)
}

#[tactic(auto, unfolding(crate::specs::Frame::end_at))]
fn frame_end(bytes: &[u8], reader: &mut BitReader<'_>) -> Result<(), FlacWhy>
    ensures { Passes result reader.new (whole.end_at bytes.now reader.old) }
{
    reader.align();
    let crc = crc16(bytes_before(bytes, reader));
    expected(reader, 16, u32::from(crc), FlacWhy::FrameCrc)
}

/// Reads a whole frame into the block, which has the stream's channels. The frame's block has at most as many samples
/// as the stream's largest and as the block has room for. What is answered is the first fault that is met in reading the
/// bytes in order; after one the block's samples may be any. It takes no memory.
#[tactic(auto, unfolding(crate::specs::Frame::frame_read))]
pub fn decode(bytes: &[u8], info: &StreamInfo, out: &mut Block) -> Result<(), FlacWhy>
    requires info { IsReadable info.now }
    requires channels { out.old.channels ≡ info.now.channels }
    ensures exact { Gives (λ _. channels_of out.new) result
        (whole.frame_read info.now out.old.capacity bytes.now) }
    ensures channels { out.new.channels ≡ out.old.channels }
    ensures capacity { out.new.capacity ≡ out.old.capacity }
{
    let mut reader = BitReader::new(bytes);
    let most = u32::from(info.max_block).min(out.capacity());
    let header = frame_header(&mut reader, info, most)?;
    header_end(bytes, &mut reader)?;
    out.read_samples(&mut reader, header, u32::from(info.bits))?;
    frame_end(bytes, &mut reader)?;
    if reader.left() != 0 {
        return Err(FlacWhy::Long);
    }
    Ok(())
}

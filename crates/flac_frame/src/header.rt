// The header of a frame.

ghost use Rattle.std.specs.Prelude.{◌≡◌, ◌≤◌, ◌<◌, ◌+◌, ◌==◌, nat_le, true, IfOk};
ghost use Rattle.flac_frame.specs.Reading.{Reads, Passes, accepted_at};
ghost use Rattle.flac_frame.specs.declared.error.FlacWhy.TheVariants.{Header as Refused};
ghost use Rattle.flac_frame.specs.Header as header;

use crate::reading::{expected, field};
use crate::{FlacWhy, StreamInfo};
use cook_bits::BitReader;

/// What the header of a frame says of what follows.
#[derive(Clone, Copy, Debug, Drop)]
pub(crate) struct Header {
    /// The samples of each channel.
    pub(crate) size: u32,
    /// The code of the channels.
    pub(crate) channel_code: u32,
}

fn size_of(code: u32) -> u32
    requires { code < 16 }
    ensures { result ≡ header.size_of code }
{
    if code == 1 {
        192
    } else if code < 6 {
        576 * (1 << code.saturating_sub(2))
    } else {
        1 << code
    }
}

fn is_size_code(most: u32, code: u32) -> bool
    requires { code < 16 }
    ensures { result ≡ header.is_size_code most code }
{
    if code == 0 {
        false
    } else if code == 6 {
        true
    } else if code == 7 {
        true
    } else {
        size_of(code) <= most
    }
}

#[tactic(auto, unfolding(crate::specs::Reading::accepted_at))]
fn size_code(reader: &mut BitReader<'_>, most: u32) -> Result<u32, FlacWhy>
    ensures reads { Reads (λ x. x) result reader.new
        (accepted_at 4 (header.is_size_code most) Refused reader.old) }
    ensures fits { IfOk result (λ code. code < 16) }
    ensures accepted { IfOk result (λ code. header.is_size_code most code ≡ true) }
{
    let code = field(reader, 4)?;
    if !is_size_code(most, code) {
        return Err(FlacWhy::Header);
    }
    Ok(code)
}

#[tactic(auto, unfolding(crate::specs::Reading::accepted_at))]
fn rate_code(reader: &mut BitReader<'_>) -> Result<u32, FlacWhy>
    ensures { Reads (λ x. x) result reader.new
        (accepted_at 4 header.is_rate_code Refused reader.old) }
{
    let code = field(reader, 4)?;
    if code >= 15 {
        return Err(FlacWhy::Header);
    }
    Ok(code)
}

fn channels_by(code: u32) -> u32
    requires { code < 16 }
    ensures { result ≡ header.channels_by code }
{
    if code < 8 {
        code + 1
    } else if code < 11 {
        2
    } else {
        0
    }
}

#[tactic(auto, unfolding(crate::specs::Reading::accepted_at))]
fn channel_code(reader: &mut BitReader<'_>, channels: u8) -> Result<u32, FlacWhy>
    ensures reads { Reads (λ x. x) result reader.new
        (accepted_at 4 (λ code. header.channels_by code == channels) Refused reader.old) }
    ensures channels { IfOk result (λ code. header.channels_by code ≡ channels) }
{
    let code = field(reader, 4)?;
    if channels_by(code) != u32::from(channels) {
        return Err(FlacWhy::Header);
    }
    Ok(code)
}

fn bits_by(stream: u32, code: u32) -> u32
    ensures { result ≡ header.bits_by stream code }
{
    match code {
        0 => stream,
        1 => 8,
        2 => 12,
        3 => 0,
        4 => 16,
        5 => 20,
        6 => 24,
        _ => 32,
    }
}

#[tactic(auto, unfolding(crate::specs::Reading::accepted_at))]
fn bits_code(reader: &mut BitReader<'_>, bits: u8) -> Result<u32, FlacWhy>
    ensures { Reads (λ x. x) result reader.new
        (accepted_at 3 (λ code. header.bits_by bits code == bits) Refused reader.old) }
{
    let code = field(reader, 3)?;
    let stream = u32::from(bits);
    if bits_by(stream, code) != stream {
        return Err(FlacWhy::Header);
    }
    Ok(code)
}

fn is_first(byte: u32) -> bool
    ensures { result ≡ header.is_first byte }
{
    if byte < 128 {
        true
    } else if byte < 192 {
        false
    } else {
        byte < 255
    }
}

fn bytes_behind(byte: u32) -> u32
    ensures { result ≡ header.bytes_behind byte }
{
    if byte < 192 {
        0
    } else if byte < 224 {
        1
    } else if byte < 240 {
        2
    } else if byte < 248 {
        3
    } else if byte < 252 {
        4
    } else if byte < 254 {
        5
    } else {
        6
    }
}

#[tactic(auto, unfolding(crate::specs::Reading::accepted_at))]
fn first_byte(reader: &mut BitReader<'_>) -> Result<u32, FlacWhy>
    ensures { Reads (λ x. x) result reader.new (accepted_at 8 header.is_first Refused reader.old) }
{
    let byte = field(reader, 8)?;
    if !is_first(byte) {
        return Err(FlacWhy::Header);
    }
    Ok(byte)
}

#[tactic(auto, unfolding(crate::specs::Reading::accepted_at))]
fn later_byte(reader: &mut BitReader<'_>) -> Result<u32, FlacWhy>
    ensures { Reads (λ x. x) result reader.new (accepted_at 8 header.is_later Refused reader.old) }
{
    let byte = field(reader, 8)?;
    if !(byte >= 128 && byte < 192) {
        return Err(FlacWhy::Header);
    }
    Ok(byte)
}

fn later_bytes(reader: &mut BitReader<'_>, count: u32) -> Result<(), FlacWhy>
    ensures { Passes result reader.new (header.later_at count reader.old) }
{
    for _ in 0..count {
        later_byte(reader)?;
    }
    Ok(())
}

#[tactic(auto, unfolding(crate::specs::Header::coded_at))]
fn coded_number(reader: &mut BitReader<'_>) -> Result<(), FlacWhy>
    ensures { Passes result reader.new (header.coded_at reader.old) }
{
    let first = first_byte(reader)?;
    later_bytes(reader, bytes_behind(first))
}

// A size less one, in so many bits.
#[tactic(auto, unfolding(crate::specs::Reading::accepted_at))]
fn size_less_one(reader: &mut BitReader<'_>, count: u32, most: u32) -> Result<u32, FlacWhy>
    requires { count ≤ 16 }
    ensures reads { Reads (λ x. x) result reader.new
        (accepted_at count (λ less. nat_le (less + 1) most) Refused reader.old) }
    ensures most { IfOk result (λ less. less + 1 ≤ most) }
{
    let less = field(reader, count)?;
    if less >= most {
        return Err(FlacWhy::Header);
    }
    Ok(less)
}

#[tactic(auto, unfolding(crate::specs::Header::size_at))]
fn size(reader: &mut BitReader<'_>, most: u32, code: u32) -> Result<u32, FlacWhy>
    requires fits { code < 16 }
    requires accepted { header.is_size_code most code ≡ true }
    ensures reads { Reads (λ x. x) result reader.new (header.size_at most code reader.old) }
    ensures most { IfOk result (λ size. size ≤ most) }
{
    if code == 6 {
        let less = size_less_one(reader, 8, most)?;
        Ok(less + 1)
    } else if code == 7 {
        let less = size_less_one(reader, 16, most)?;
        Ok(less + 1)
    } else {
        Ok(size_of(code))
    }
}

#[tactic(auto, unfolding(crate::specs::Header::rate_at))]
fn rate(reader: &mut BitReader<'_>, code: u32) -> Result<(), FlacWhy>
    ensures { Passes result reader.new (header.rate_at code reader.old) }
{
    if code == 12 {
        field(reader, 8)?;
        Ok(())
    } else if code < 13 {
        Ok(())
    } else {
        field(reader, 16)?;
        Ok(())
    }
}

/// The header but for its CRC. A block has at most so many samples.
#[tactic(auto, unfolding(crate::specs::Header::header_at))]
pub(crate) fn frame_header(
    reader: &mut BitReader<'_>,
    info: &StreamInfo,
    most: u32,
) -> Result<Header, FlacWhy>
    ensures reads { Reads (λ x. x) result reader.new (header.header_at info.now most reader.old) }
    ensures most { IfOk result (λ header. header.size ≤ most) }
    ensures channels { IfOk result (λ read. header.channels_by read.channel_code ≡ info.now.channels) }
{
    expected(reader, 15, 0x7FFC, FlacWhy::Sync)?;
    field(reader, 1)?;
    let size_code = size_code(reader, most)?;
    let rate_code = rate_code(reader)?;
    let channel_code = channel_code(reader, info.channels)?;
    bits_code(reader, info.bits)?;
    expected(reader, 1, 0, FlacWhy::Header)?;
    coded_number(reader)?;
    let size = size(reader, most, size_code)?;
    rate(reader, rate_code)?;
    Ok(Header { size, channel_code })
}

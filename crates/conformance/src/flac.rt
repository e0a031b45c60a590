// Sound: the parameters of a stream, and its frames.

ghost use Rattle.std.specs.Prelude.{◌≡◌, ◌≤◌, IsTrue, IfOk, length};
ghost use Rattle.flac_frame.specs.StreamInfo.{IsWritable, IsReadable, is_depth};
ghost use Rattle.flac_frame.specs.Writing.{AreAllInside};

use crate::predict::are_inside;
use crate::stop::Stop;
use crate::{answer, parse};
use flac_frame::{Block, FlacWhy, StreamInfo, decode, encode};
use std::alloc::Global;

/// The answer to a case of sound, if the words are one.
pub fn answer_to(alloc: Global, words: &[&str]) -> Option<Result<String, Stop>> {
    Some(match words {
        ["info_write", fields @ ..] => info_write(alloc, fields),
        ["info_read", info] => info_read(alloc, info),
        ["block", info, bytes] => block(alloc, info, bytes),
        ["block_within", capacity, info, bytes] => block_within(alloc, capacity, info, bytes),
        ["flac", words @ ..] => frame(alloc, words),
        _ => return None,
    })
}

// The parameters of a stream that is written in blocks of 4,096.
fn stream_of(rate: &str, channels: &str, bits: &str, total: &str) -> Result<StreamInfo, Stop> {
    Ok(StreamInfo {
        min_block: 4096,
        max_block: 4096,
        min_frame: 0,
        max_frame: 0,
        rate: parse::number(rate)?,
        channels: parse::number(channels)?,
        bits: parse::number(bits)?,
        total: parse::number(total)?,
        md5: [0; 16],
    })
}

fn channels_of(alloc: Global, words: &[&str]) -> Result<Vec<Vec<i32>>, Stop> {
    let mut channels = Vec::new(alloc);
    for word in words {
        channels.push(parse::numbers(alloc, word)?)?;
    }
    Ok(channels)
}

fn stream(alloc: Global, words: &[&str]) -> Result<StreamInfo, Stop> {
    let &[
        min_block,
        max_block,
        min_frame,
        max_frame,
        rate,
        channels,
        bits,
        total,
        sum,
    ] = words
    else {
        return Err(Stop::Unreadable);
    };
    let spelled = parse::bytes(alloc, sum)?;
    let mut md5 = [0; 16];
    if spelled.len() != md5.len() {
        return Err(Stop::Unreadable);
    }
    md5.copy_from_slice(spelled.as_slice());
    Ok(StreamInfo {
        min_block: parse::number(min_block)?,
        max_block: parse::number(max_block)?,
        min_frame: parse::number(min_frame)?,
        max_frame: parse::number(max_frame)?,
        rate: parse::number(rate)?,
        channels: parse::number(channels)?,
        bits: parse::number(bits)?,
        total: parse::number(total)?,
        md5,
    })
}

fn info_bytes(alloc: Global, word: &str) -> Result<[u8; 34], Stop> {
    let spelled = parse::bytes(alloc, word)?;
    let mut info = [0; 34];
    if spelled.len() != info.len() {
        return Err(Stop::Unreadable);
    }
    info.copy_from_slice(spelled.as_slice());
    Ok(info)
}

fn is_depth(bits: u8) -> bool
    ensures { result ≡ is_depth bits }
{
    bits == 8 || bits == 16 || bits == 24
}

// Whether each field fits its bits.
fn is_writable(info: StreamInfo) -> bool
    ensures { IsTrue result → IsWritable info }
{
    if info.min_frame >= 1 << 24 || info.max_frame >= 1 << 24 {
        return false;
    }
    if info.rate >= 1 << 20 || info.total >= 1 << 36 {
        return false;
    }
    if info.channels < 1 || info.channels > 8 {
        return false;
    }
    is_depth(info.bits)
}

fn info_write(alloc: Global, fields: &[&str]) -> Result<String, Stop> {
    let info = stream(alloc, fields)?;
    if !is_writable(info) {
        return Err(Stop::OutOfRange);
    }
    let mut out = [0; 34];
    info.write(&mut out);
    answer::bytes(alloc, &out)
}

fn info_read(alloc: Global, word: &str) -> Result<String, Stop> {
    match StreamInfo::read(&info_bytes(alloc, word)?) {
        Ok(info) => info_told(alloc, &info),
        Err(_) => Ok(String::from_str(alloc, "bad")?),
    }
}

fn info_told(alloc: Global, info: &StreamInfo) -> Result<String, Stop> {
    let StreamInfo {
        min_block,
        max_block,
        min_frame,
        max_frame,
        rate,
        channels,
        bits,
        total,
        md5,
    } = info;
    let sum = answer::bytes(alloc, md5)?;
    Ok(format!(in alloc;
        "{min_block} {max_block} {min_frame} {max_frame} {rate} {channels} {bits} {total} {sum}"
    )?)
}

fn name(why: FlacWhy) -> &'static str {
    match why {
        FlacWhy::Short => "Short",
        FlacWhy::Sync => "Sync",
        FlacWhy::Header => "Header",
        FlacWhy::HeaderCrc => "HeaderCrc",
        FlacWhy::Subframe => "Subframe",
        FlacWhy::Residual => "Residual",
        FlacWhy::Range => "Range",
        FlacWhy::FrameCrc => "FrameCrc",
        FlacWhy::Long => "Long",
    }
}

// The stream whose bytes a word spells.
fn stream_read(alloc: Global, word: &str) -> Result<StreamInfo, Stop>
    ensures { IfOk result IsReadable }
{
    match StreamInfo::read(&info_bytes(alloc, word)?) {
        Ok(info) => Ok(info),
        Err(_) => Err(Stop::OutOfRange),
    }
}

fn block(alloc: Global, info: &str, bytes: &str) -> Result<String, Stop> {
    let bytes = parse::bytes(alloc, bytes)?;
    let info = stream_read(alloc, info)?;
    decoded(alloc, &info, u32::from(info.max_block), bytes.as_slice())
}

fn block_within(alloc: Global, capacity: &str, info: &str, bytes: &str) -> Result<String, Stop> {
    let capacity = parse::number(capacity)?;
    let bytes = parse::bytes(alloc, bytes)?;
    let info = stream_read(alloc, info)?;
    decoded(alloc, &info, capacity, bytes.as_slice())
}

// What the bytes are decoded to, in a block that has room for `capacity` samples of each channel.
fn decoded(alloc: Global, info: &StreamInfo, capacity: u32, bytes: &[u8]) -> Result<String, Stop>
    requires { IsReadable info.now }
{
    let mut block = Block::new(alloc, info.channels, capacity)?;
    match decode(bytes, info, &mut block) {
        Ok(()) => block_told(alloc, &block, info.channels),
        Err(why) => Ok(String::from_str(alloc, name(why))?),
    }
}

fn block_told(alloc: Global, block: &Block, channels: u8) -> Result<String, Stop>
    requires { block.now.channels ≡ channels }
{
    let mut text = String::new(alloc);
    for k in 0..channels {
        if k > 0 {
            text.push(' ')?;
        }
        text.push_str(answer::sound(alloc, block.channel(k))?.as_str())?;
    }
    Ok(text)
}

// A block of these samples, as many of each channel.
fn filled(alloc: Global, channels: &[Vec<i32>]) -> Result<Block, Stop>
    ensures count { IfOk result (λ block. block.channels ≡ length channels.now) }
    ensures few { IfOk result (λ block. block.len ≤ 4096) }
{
    let count = channels.len();
    if count < 1 || count > 8 || channels[0].len() > 4096 {
        return Err(Stop::OutOfRange);
    }
    let len = channels[0].len() as u32;
    let mut block = Block::new(alloc, count as u8, len)?;
    block.set_len(len);
    for k in 0..count {
        let samples = channels[k].as_slice();
        let room = block.channel_mut(k as u8);
        if room.len() != samples.len() {
            return Err(Stop::OutOfRange);
        }
        room.copy_from_slice(samples);
    }
    Ok(block)
}

// Whether the samples of each channel are inside so many bits.
fn are_all_inside(block: &Block, channels: u8, bits: u8) -> bool
    requires channels { block.now.channels ≡ channels }
    requires low { 1 ≤ bits }
    requires high { bits ≤ 25 }
    ensures { IsTrue result → AreAllInside bits block.now }
{
    for k in 0..channels {
        if !are_inside(block.channel(k), u32::from(bits)) {
            return false;
        }
    }
    true
}

fn frame(alloc: Global, words: &[&str]) -> Result<String, Stop> {
    let [rate, channels, bits, total, number, samples @ ..] = words else {
        return Err(Stop::Unreadable);
    };
    let info = stream_of(rate, channels, bits, total)?;
    let number = parse::number(number)?;
    let channels = channels_of(alloc, samples)?;
    encoded(alloc, &info, number, channels.as_slice())
}

fn encoded(
    alloc: Global,
    info: &StreamInfo,
    number: u32,
    channels: &[Vec<i32>],
) -> Result<String, Stop> {
    if !is_writable(*info) || channels.len() != info.channels as usize {
        return Err(Stop::OutOfRange);
    }
    let block = filled(alloc, channels)?;
    if block.len() < 1 || block.len() > u32::from(info.max_block) || info.max_block < 16 {
        return Err(Stop::OutOfRange);
    }
    if number >= 1 << 31 || !are_all_inside(&block, info.channels, info.bits) {
        return Err(Stop::OutOfRange);
    }
    let frame = encode(alloc, &block, info, number)?;
    answer::bytes(alloc, frame.as_slice())
}

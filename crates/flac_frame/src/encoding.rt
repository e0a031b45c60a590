// A block as a frame.

ghost use Rattle.std.specs.Prelude.{◌≡◌, ◌^◌, ◌≤◌, ◌<◌, length, IfOk};
ghost use Rattle.flac_frame.specs.StreamInfo.{IsWritable};
ghost use Rattle.flac_frame.specs.Samples.{channels_of};
ghost use Rattle.flac_frame.specs.Writing.{AreAllInside, flac_of};
ghost use Rattle.flac_frame.specs.Writing as whole;
ghost use Rattle.cook_bits.specs.Bits.{bytes_of};

mod channels;
mod fields;
mod header;
mod subframe;

use crate::laws::frames_are_light;
use crate::{Block, StreamInfo};
use channels::{Subframes, each, pair};
use cook_bits::{Bytes, NoMemory, crc16};
use header::head;
use std::alloc::Global;

/// The frame of a number that holds the block, of at most 98,400 bytes: each channel, or the two of a pair as the code
/// of their channels stores them, by the choice that takes the fewest bits. The block has the stream's channels and 1 to
/// 4,096 samples of each, no more than the stream's largest block, each inside the stream's bits; the number is below
/// 2^31.
#[tactic(auto, unfolding(crate::specs::Writing::flac_of))]
pub fn encode(
    alloc: Global,
    block: &Block,
    info: &StreamInfo,
    number: u32,
) -> Result<Bytes, NoMemory>
    requires info { IsWritable info.now }
    requires large { 16 ≤ info.now.max_block }
    requires channels { block.now.channels ≡ info.now.channels }
    requires some { 1 ≤ block.now.len }
    requires few { block.now.len ≤ 4096 }
    requires within { block.now.len ≤ info.now.max_block }
    requires inside { AreAllInside info.now.bits block.now }
    requires number { number < 2 ^ 31 }
    ensures exact { IfOk result (λ frame. frame ≡ flac_of (channels_of block.now) info.now number) }
    ensures bytes { IfOk result (λ frame. length frame ≤ 98400) }
{
    let size = block.len();
    let bits = u32::from(info.bits);
    frames_are_light();
    block.is_whole();
    let subframes = subframes_of(alloc, block, bits)?;
    let mut frame = head(alloc, bits, subframes.code, size, number)?;
    frame.append(subframes.bytes.as_slice())?;
    let crc = crc16(frame.as_slice());
    frame.append(&crc.to_be_bytes())?;
    Ok(frame)
}

// The subframes of the channels as they are stored.
fn subframes_of(alloc: Global, block: &Block, bits: u32) -> Result<Subframes, NoMemory>
    requires low { 8 ≤ bits }
    requires high { bits ≤ 24 }
    requires channels { 1 ≤ block.now.channels }
    requires eight { block.now.channels ≤ 8 }
    requires some { 1 ≤ block.now.len }
    requires few { block.now.len ≤ 4096 }
    requires inside { AreAllInside bits block.now }
    ensures code { IfOk result (λ all. all.code ≡ whole.code_of bits (channels_of block.now)) }
    ensures bytes { IfOk result (λ all. all.bytes ≡ bytes_of (whole.padded (whole.subframes_bits all.code bits 0
        (whole.stored_by all.code (channels_of block.now))))) }
    ensures fits { IfOk result (λ all. all.code < 2 ^ 4) }
{
    let mut work = vec![in alloc; 0; block.len() as usize]?;
    let work = work.as_mut_slice();
    if block.channels() != 2 {
        return each(alloc, block, bits, work);
    }
    pair(alloc, block.channel(0), block.channel(1), bits, work)
}

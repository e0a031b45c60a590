// Sound in RIFF WAVE files.

ghost use Rattle.std.specs.Prelude.{IsTrue, ◌≤◌, IfOk};
ghost use Rattle.wav_chunks.specs.Samples.{IsDepth, AreInside};

use crate::predict::are_inside;
use crate::shelf::{PACKAGE, len_of, shelf_of};
use crate::stop::Stop;
use crate::{answer, parse};
use std::alloc::Global;
use wav_chunks::{WavError, WavLayout, find, to_bytes, to_samples};

/// The answer to a case of waves, if the words are one.
pub fn answer_to(alloc: Global, words: &[&str]) -> Option<Result<String, Stop>> {
    Some(match words {
        ["wave", len, file] => layout_told(alloc, len, file),
        ["samples", channels, bits, channel, bytes] => {
            channel_taken(alloc, channels, bits, channel, bytes)
        }
        ["bytes", channels, bits, channel, samples, bytes] => {
            channel_put(alloc, channels, bits, channel, samples, bytes)
        }
        _ => return None,
    })
}

fn layout_told(alloc: Global, len: &str, file: &str) -> Result<String, Stop> {
    let (len, file) = (parse::number(len)?, parse::bytes(alloc, file)?);
    let mut shelf = shelf_of(alloc, file.as_slice())?;
    if len_of(&mut shelf, PACKAGE)? != len {
        return Err(Stop::OutOfRange);
    }
    match find(&mut shelf, PACKAGE, len) {
        Ok(layout) => {
            let (head_len, channels, bits) = (layout.head_len, layout.channels, layout.bits);
            let (rate, blocks) = (layout.rate, layout.blocks);
            Ok(format!(in alloc; "{head_len} {channels} {bits} {rate} {blocks}")?)
        }
        Err(WavError::Why(why)) => Ok(format!(in alloc; "{why}")?),
        Err(WavError::NoMemory) => Err(Stop::NoMemory),
        Err(WavError::Short { .. } | WavError::Failed) => Err(Stop::OutOfRange),
    }
}

// Whether samples of so many bits are taken.
fn is_depth(bits: u8) -> bool
    ensures depth { IsTrue result → IsDepth bits }
    ensures low { IsTrue result → 8 ≤ bits }
    ensures high { IsTrue result → bits ≤ 24 }
{
    matches!(bits, 8 | 16 | 24)
}

// The layout of blocks of so many channels and bits.
fn layout_of(channels: &str, bits: &str) -> Result<WavLayout, Stop>
    ensures some { IfOk result (λ layout. 1 ≤ layout.channels) }
    ensures few { IfOk result (λ layout. layout.channels ≤ 8) }
    ensures depth { IfOk result (λ layout. IsDepth layout.bits) }
    ensures low { IfOk result (λ layout. 8 ≤ layout.bits) }
    ensures high { IfOk result (λ layout. layout.bits ≤ 24) }
{
    let (channels, bits) = (parse::number(channels)?, parse::number(bits)?);
    if channels < 1 || channels > 8 || !is_depth(bits) {
        return Err(Stop::OutOfRange);
    }
    Ok(WavLayout {
        head_len: 0,
        channels,
        bits,
        rate: 1,
        blocks: 0,
    })
}

fn channel_taken(
    alloc: Global,
    channels: &str,
    bits: &str,
    channel: &str,
    bytes: &str,
) -> Result<String, Stop> {
    let (layout, channel) = (layout_of(channels, bits)?, parse::number(channel)?);
    let bytes = parse::bytes(alloc, bytes)?;
    let block = layout.channels as usize * (layout.bits as usize / 8);
    let Some(count) = bytes.len().checked_div(block) else {
        return Err(Stop::OutOfRange);
    };
    if channel >= layout.channels || count * block != bytes.len() {
        return Err(Stop::OutOfRange);
    }
    let mut samples = vec![in alloc; 0i32; count]?;
    to_samples(&layout, bytes.as_slice(), channel, samples.as_mut_slice());
    answer::sound(alloc, samples.as_slice())
}

// Whether the samples are inside so many bits.
#[tactic(auto, using(crate::proofs::SampleLaws::inside_laws))]
fn fit(samples: &[i32], bits: u8) -> bool
    requires low { 8 ≤ bits }
    requires high { bits ≤ 24 }
    ensures { IsTrue result → AreInside bits samples.now }
{
    are_inside(samples, u32::from(bits))
}

fn channel_put(
    alloc: Global,
    channels: &str,
    bits: &str,
    channel: &str,
    samples: &str,
    bytes: &str,
) -> Result<String, Stop> {
    let (layout, channel) = (layout_of(channels, bits)?, parse::number(channel)?);
    let samples = parse::numbers(alloc, samples)?;
    let mut bytes = parse::bytes(alloc, bytes)?;
    let block = layout.channels as usize * (layout.bits as usize / 8);
    if channel >= layout.channels || !fit(samples.as_slice(), layout.bits) {
        return Err(Stop::OutOfRange);
    }
    if samples.len().checked_mul(block) != Some(bytes.len()) {
        return Err(Stop::OutOfRange);
    }
    to_bytes(&layout, channel, samples.as_slice(), bytes.as_mut_slice());
    answer::bytes(alloc, bytes.as_slice())
}

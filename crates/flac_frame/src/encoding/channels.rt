// The subframes of a block's channels as they are written.

ghost use Rattle.std.specs.Prelude.{◌≡◌, ◌+◌, ◌-◌, ◌≤◌, ◌<◌, ◌++◌, [], ◌∷◌, length, IfOk, OnOk};
ghost use Rattle.flac_frame.specs.Samples.{channels_of};
ghost use Rattle.flac_frame.specs.Frame as grammar;
ghost use Rattle.flac_frame.specs.Writing as whole;
ghost use Rattle.flac_frame.specs.Writing.{AreAllInside};
ghost use Rattle.flac_predict.specs.Samples.{IsInside, AreInside};
ghost use Rattle.flac_predict.specs.Choice.{best_candidate, IsCandidate};
ghost use Rattle.cook_bits.specs.Bits.{bytes_of};

use super::subframe::put_subframe;
use crate::Block;
use crate::channels::depth_of;
use cook_bits::{BitWriter, Bytes, NoMemory};
use flac_predict::{Choice, choose, weigh};
use std::alloc::Global;

/// The subframes of a frame, and the code of its channels.
#[derive(Debug, Drop)]
pub(super) struct Subframes {
    pub(super) code: u32,
    pub(super) bytes: Bytes,
}

// Left minus right.
fn fill_sides(left: &[i32], right: &[i32], out: &mut [i32])
    requires left { AreInside 24 left.now }
    requires right { AreInside 24 right.now }
    requires same { length right.now ≡ length left.now }
    requires room { length out.old ≡ length left.now }
    ensures { out.new ≡ whole.sides left.now right.now }
{
    for place in 0..out.len() {
        out[place] = side_of(left[place], right[place]);
    }
}

fn side_of(left: i32, right: i32) -> i32
    requires left { IsInside 24 left }
    requires right { IsInside 24 right }
    ensures { result ≡ whole.side_of left right }
{
    left - right
}

// The floor of half of left and right.
fn fill_mids(left: &[i32], right: &[i32], out: &mut [i32])
    requires left { AreInside 24 left.now }
    requires right { AreInside 24 right.now }
    requires same { length right.now ≡ length left.now }
    requires room { length out.old ≡ length left.now }
    ensures { out.new ≡ whole.mids left.now right.now }
{
    for place in 0..out.len() {
        out[place] = mid_of(left[place], right[place]);
    }
}

fn mid_of(left: i32, right: i32) -> i32
    requires left { IsInside 24 left }
    requires right { IsInside 24 right }
    ensures { result ≡ whole.mid_of left right }
{
    (left + right) >> 1
}

/// A code of two channels, and how many bits they take under it.
#[derive(Clone, Copy, Debug, Drop)]
struct Mode {
    code: u32,
    bits: u64,
}

fn lesser(first: Mode, next: Mode) -> Mode
    ensures { result ≡ whole.lesser first next }
{
    if next.bits < first.bits { next } else { first }
}

// The code of the fewest bits, the first of these on a tie.
#[tactic(auto, unfolding(crate::specs::Writing::code_by))]
fn code_by(left: u64, right: u64, side: u64, mid: u64) -> u32
    requires left { left ≤ 200000 }
    requires right { right ≤ 200000 }
    requires side { side ≤ 200000 }
    requires mid { mid ≤ 200000 }
    ensures { result ≡ whole.code_by left right side mid }
{
    let each = Mode {
        code: 1,
        bits: left + right,
    };
    let left_side = Mode {
        code: 8,
        bits: left + side,
    };
    let side_right = Mode {
        code: 9,
        bits: side + right,
    };
    let mid_side = Mode {
        code: 10,
        bits: mid + side,
    };
    lesser(each, lesser(left_side, lesser(side_right, mid_side))).code
}

/// A channel's samples by their best choice.
fn put_channel(
    writer: &mut BitWriter,
    samples: &[i32],
    bits: u32,
    work: &mut [i32],
) -> Result<(), NoMemory>
    requires low { 8 ≤ bits }
    requires high { bits ≤ 25 }
    requires some { 1 ≤ length samples.now }
    requires few { length samples.now ≤ 4096 }
    requires samples { AreInside bits samples.now }
    requires wide { AreInside 25 samples.now }
    requires room { length work.old ≡ length samples.now }
    ensures { OnOk result (writer.new ≡ writer.old ++ whole.best_subframe bits samples.now) }
{
    let choice = choose(samples, bits, work);
    put_subframe(writer, samples, bits, choice, work)
}

fn put_each(
    writer: &mut BitWriter,
    block: &Block,
    bits: u32,
    work: &mut [i32],
) -> Result<(), NoMemory>
    requires low { 8 ≤ bits }
    requires high { bits ≤ 24 }
    requires some { 1 ≤ block.now.len }
    requires few { block.now.len ≤ 4096 }
    requires samples { AreAllInside bits block.now }
    requires room { length work.old ≡ block.now.len }
    ensures { OnOk result (writer.new ≡ writer.old ++ whole.each_bits bits (channels_of block.now)) }
{
    for k in 0..block.channels() {
        put_channel(writer, block.channel(k), bits, work)?;
    }
    Ok(())
}

/// The subframes of channels that are stored each by itself.
pub(super) fn each(
    alloc: Global,
    block: &Block,
    bits: u32,
    work: &mut [i32],
) -> Result<Subframes, NoMemory>
    requires low { 8 ≤ bits }
    requires high { bits ≤ 24 }
    requires channels { 1 ≤ block.now.channels }
    requires some { 1 ≤ block.now.len }
    requires few { block.now.len ≤ 4096 }
    requires samples { AreAllInside bits block.now }
    requires room { length work.old ≡ block.now.len }
    ensures code { IfOk result (λ all. all.code + 1 ≡ block.now.channels) }
    ensures bytes { IfOk result (λ all. all.bytes ≡ bytes_of (whole.padded (whole.each_bits bits (channels_of block.now)))) }
{
    let mut writer = BitWriter::new(alloc);
    put_each(&mut writer, block, bits, work)?;
    writer.align()?;
    Ok(Subframes {
        code: u32::from(block.channels()) - 1,
        bytes: writer.finish(),
    })
}

// The subframes of two channels as they are stored under a code, by their best choices.
#[tactic(auto, unfolding(crate::specs::Writing::subframes_bits))]
fn stored(
    alloc: Global,
    code: u32,
    bits: u32,
    first: &[i32],
    second: &[i32],
    choices: (Choice, Choice),
    work: &mut [i32],
) -> Result<Subframes, NoMemory>
    requires low { 8 ≤ bits }
    requires high { bits ≤ 24 }
    requires some { 1 ≤ length first.now }
    requires same { length second.now ≡ length first.now }
    requires first { AreInside (grammar.depth_of code bits 0) first.now }
    requires second { AreInside (grammar.depth_of code bits 1) second.now }
    requires first_wide { AreInside 25 first.now }
    requires second_wide { AreInside 25 second.now }
    requires first_choice { choices.0 ≡ best_candidate (grammar.depth_of code bits 0) first.now }
    requires second_choice { choices.1 ≡ best_candidate (grammar.depth_of code bits 1) second.now }
    requires first_candidate { IsCandidate first.now choices.0 }
    requires second_candidate { IsCandidate second.now choices.1 }
    requires room { length work.old ≡ length first.now }
    ensures code { IfOk result (λ all. all.code ≡ code) }
    ensures bytes { IfOk result (λ all. all.bytes ≡ bytes_of (whole.padded
        (whole.subframes_bits code bits 0 (first.now ∷ second.now ∷ [])))) }
{
    let mut writer = BitWriter::new(alloc);
    put_subframe(&mut writer, first, depth_of(code, bits, 0), choices.0, work)?;
    put_subframe(
        &mut writer,
        second,
        depth_of(code, bits, 1),
        choices.1,
        work,
    )?;
    writer.align()?;
    Ok(Subframes {
        code,
        bytes: writer.finish(),
    })
}

// The subframes of two channels, with their sides and mids, under the code with the fewest bits.
fn under_best(
    alloc: Global,
    left: &[i32],
    right: &[i32],
    sides: &[i32],
    mids: &[i32],
    bits: u32,
    work: &mut [i32],
) -> Result<Subframes, NoMemory>
    requires low { 8 ≤ bits }
    requires high { bits ≤ 24 }
    requires some { 1 ≤ length left.now }
    requires few { length left.now ≤ 4096 }
    requires same { length right.now ≡ length left.now }
    requires side_count { length sides.now ≡ length left.now }
    requires mid_count { length mids.now ≡ length left.now }
    requires left { AreInside bits left.now }
    requires right { AreInside bits right.now }
    requires sides { sides.now ≡ whole.sides left.now right.now }
    requires mids { mids.now ≡ whole.mids left.now right.now }
    requires room { length work.old ≡ length left.now }
    ensures code { IfOk result (λ all. all.code ≡ whole.best_code bits left.now right.now) }
    ensures bytes { IfOk result (λ all. all.bytes ≡ bytes_of (whole.padded (whole.subframes_bits all.code bits 0
        (whole.stored_by all.code (left.now ∷ right.now ∷ []))))) }
{
    let l = weigh(left, bits, work);
    let r = weigh(right, bits, work);
    let s = weigh(sides, bits + 1, work);
    let m = weigh(mids, bits, work);
    match code_by(l.bits, r.bits, s.bits, m.bits) {
        8 => stored(alloc, 8, bits, left, sides, (l.choice, s.choice), work),
        9 => stored(alloc, 9, bits, sides, right, (s.choice, r.choice), work),
        10 => stored(alloc, 10, bits, mids, sides, (m.choice, s.choice), work),
        _ => stored(alloc, 1, bits, left, right, (l.choice, r.choice), work),
    }
}

/// The subframes of two channels, under the code with the fewest bits.
pub(super) fn pair(
    alloc: Global,
    left: &[i32],
    right: &[i32],
    bits: u32,
    work: &mut [i32],
) -> Result<Subframes, NoMemory>
    requires low { 8 ≤ bits }
    requires high { bits ≤ 24 }
    requires some { 1 ≤ length left.now }
    requires few { length left.now ≤ 4096 }
    requires same { length right.now ≡ length left.now }
    requires left { AreInside bits left.now }
    requires right { AreInside bits right.now }
    requires room { length work.old ≡ length left.now }
    ensures code { IfOk result (λ all. all.code ≡ whole.best_code bits left.now right.now) }
    ensures bytes { IfOk result (λ all. all.bytes ≡ bytes_of (whole.padded (whole.subframes_bits all.code bits 0
        (whole.stored_by all.code (left.now ∷ right.now ∷ []))))) }
{
    let mut sides = vec![in alloc; 0; left.len()]?;
    let mut mids = vec![in alloc; 0; left.len()]?;
    fill_sides(left, right, sides.as_mut_slice());
    fill_mids(left, right, mids.as_mut_slice());
    under_best(
        alloc,
        left,
        right,
        sides.as_slice(),
        mids.as_slice(),
        bits,
        work,
    )
}

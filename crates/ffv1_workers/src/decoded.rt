// The tiles of a frame decoded by workers.

ghost use Rattle.std.specs.Prelude.{◌≡◌, ◌+◌, ◌*◌, ◌<◌, ◌≤◌, All, IfErr, OnOk, length};
ghost use Rattle.dpx_packing.specs.Tiles.{CoverOnce};
ghost use Rattle.ffv1_frame.specs.Grid.{IsGridOf, IsHeadIn};
ghost use Rattle.ffv1_frame.specs.Parts.{IsCut, tiles_of};
ghost use Rattle.ffv1_frame.specs.Picture.{PictureFault};
ghost use Rattle.ffv1_workers.specs.Decoding.{HasScratch};
ghost use Rattle.ffv1_workers.specs.Frames.{AreHeadsBelow, HasTiles, IsFirstFault, TellsPicture};

use crate::DecodeTask;
use crate::starts::place_tiles;
use dpx_packing::tile_laws::{tiles_fill, tiles_hold_their_pixels};
use ffv1_frame::{Grid, Part, Parts, PictureWhy, cut};
use ffv1_params::Params;
use ffv1_slice::laws::{heads_are_one, slices_begin};
use ffv1_slice::{Scratch, SliceHead, SliceWhy};
use slice_pool::{Gate, run_tiles};
use std::marker::Sync;
use std::thread::Threads;

/// The most tiles of a frame: so many answers are lent to `decode_frame`, and one bound more.
pub const MOST_TILES: usize = 1024;

// The first answer that is a fault.
#[tactic(auto, using(crate::proofs::AnswerLaws::answers))]
fn first_fault(answers: &[Result<SliceHead, SliceWhy>]) -> Result<(), PictureWhy>
    requires few { length answers.now ≤ 1024 }
    ensures ok { OnOk result (AreHeadsBelow answers.now (length answers.now)) }
    ensures err { IfErr result (IsFirstFault answers.now) }
{
    for i in 0..answers.len() {
        if let Err(why) = answers[i] {
            return Err(PictureWhy::Slice(i as u32, why));
        }
    }
    Ok(())
}

// Decodes the tiles of a frame that was cut into parts.
fn decode_parts<R: Threads + Sync, G: Gate + Sync>(
    rt: &R,
    params: &Params,
    grid: &Grid,
    bytes: &[u8],
    parts: &[Part],
    bounds: &mut [usize],
    answers: &mut [Result<SliceHead, SliceWhy>],
    scratch: &mut [Scratch],
    buffer: &mut [u16],
    gate: &G,
) -> Result<(), PictureWhy>
    requires grid { IsGridOf params.now grid.now }
    requires cut { IsCut params.now grid.now bytes.now parts.now }
    requires tiles { CoverOnce grid.now.width grid.now.height (tiles_of grid.now parts.now) }
    requires few { length parts.now ≤ 1024 }
    requires bounds { length bounds.old ≡ length parts.now + 1 }
    requires answers { length answers.old ≡ length parts.now }
    requires some { 0 < length scratch.old }
    requires workers { length scratch.old < 4294967296 }
    requires fit { All (λ s. HasScratch params.now grid.now s) scratch.old }
    requires buffer { length buffer.old ≡ 3 * grid.now.width * grid.now.height }
    ensures ok { OnOk result (HasTiles params.now grid.now bytes.now parts.now buffer.new) }
    ensures err { IfErr result (PictureFault params.now grid.now bytes.now) }
    ensures fit { All (λ s. HasScratch params.now grid.now s) scratch.new }
{
    heads_are_one();
    slices_begin();
    tiles_fill();
    let _columns = params.columns();
    place_tiles(grid, parts, bounds);
    let task = DecodeTask {
        bytes,
        params,
        grid,
        parts,
    };
    run_tiles(rt, &task, buffer, bounds, scratch, answers, gate);
    first_fault(answers)
}

/// Decodes a frame into a buffer in which the samples stand tile after tile in order of the slices, each tile line by line,
/// by as many workers as scratches. The tiles of the parts cover the picture, whose samples `from_tiles` then takes out of
/// the buffer. `Err` is the first fault: that of the frame, or of the first slice in order that codes no tile; the buffer and
/// the parts are then free. It takes no memory.
pub fn decode_frame<R: Threads + Sync, G: Gate + Sync>(
    rt: &R,
    params: &Params,
    grid: &Grid,
    bytes: &[u8],
    parts: &mut Parts,
    bounds: &mut [usize],
    answers: &mut [Result<SliceHead, SliceWhy>],
    scratch: &mut [Scratch],
    buffer: &mut [u16],
    gate: &G,
) -> Result<(), PictureWhy>
    requires grid { IsGridOf params.now grid.now }
    requires bounds { 1025 ≤ length bounds.old }
    requires answers { 1024 ≤ length answers.old }
    requires some { 0 < length scratch.old }
    requires workers { length scratch.old < 4294967296 }
    requires fit { All (λ s. HasScratch params.now grid.now s) scratch.old }
    requires buffer { length buffer.old ≡ 3 * grid.now.width * grid.now.height }
    ensures cut { OnOk result (IsCut params.now grid.now bytes.now parts.new.items) }
    ensures tiles { OnOk result (CoverOnce grid.now.width grid.now.height (tiles_of grid.now parts.new.items)) }
    ensures heads { OnOk result (All (λ part. IsHeadIn grid.now part.head) parts.new.items) }
    ensures picture { OnOk result (TellsPicture params.now grid.now bytes.now parts.new.items buffer.new) }
    ensures err { IfErr result (PictureFault params.now grid.now bytes.now) }
    ensures fit { All (λ s. HasScratch params.now grid.now s) scratch.new }
{
    tiles_hold_their_pixels();
    if let Err(why) = cut(bytes, params, grid, parts) {
        return Err(PictureWhy::Frame(why));
    }
    let found = parts.as_slice();
    let count = found.len();
    decode_parts(
        rt,
        params,
        grid,
        bytes,
        found,
        &mut bounds[..count + 1],
        &mut answers[..count],
        scratch,
        buffer,
        gate,
    )
}

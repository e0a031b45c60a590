// Frames of FFV1.

ghost use Rattle.std.specs.Prelude.{◌≡◌, IsTrue, All, IfOk};
ghost use Rattle.ffv1_frame.specs.Written.{IsPictureIn};
ghost use Rattle.ffv1_workers.specs.Decoding.{HasScratch};
ghost use Rattle.ffv1_frame.specs.Grid.{IsGridOf, IsHeadIn};
ghost use Rattle.ffv1_frame.specs.Parts.{tiles_of};

use crate::dpx::is_well_formed;
use crate::params::{film, is_picture, recorded};
use crate::slices::{is_inside, is_tile};
use crate::stop::Stop;
use crate::{answer, parse};
use dpx_header::{Layout, line_len};
use dpx_packing::{Tile, from_tiles};
use ffv1_frame::{FrameWhy, Grid, Part, Parts, PictureWhy, grid};
use ffv1_params::Params;
use ffv1_slice::{Scratch, SliceHead, SliceWhy};
use ffv1_workers::{MOST_TILES, NoScratch, decode_frame, encode_frame, no_slices};
use slice_pool::OpenGate;
use std::alloc::Global;
use std::marker::Sync;
use std::thread::Threads;

/// The answer to a case of frames, if the words are one: a picture that is written, or a frame that is read, each by two workers.
pub fn answer_to<R: Threads + Sync>(
    rt: &R,
    alloc: Global,
    words: &[&str],
) -> Option<Result<String, Stop>> {
    Some(match words {
        ["frame", bits, width, height, samples] => {
            frame(rt, alloc, bits, width, height, samples)
        }
        ["picture", record, width, height, bytes] => {
            coded(rt, alloc, record, width, height, bytes)
        }
        _ => return None,
    })
}

// Whether the samples are a picture of this size.
fn is_picture_of(params: &Params, width: u32, height: u32, samples: &[u16]) -> bool
    ensures { IsTrue result → IsPictureIn params.now.bits width height samples.now }
{
    is_picture(width, height) && is_tile(params, width, height, samples)
}

// Room for a worker.
fn room(alloc: Global, params: &Params, grid: &Grid) -> Result<Scratch, Stop>
    requires { IsGridOf params.now grid.now }
    ensures { IfOk result (HasScratch params.now grid.now) }
{
    Ok(Scratch::new(alloc, params.most_contexts(), grid.width)?)
}

fn written<R: Threads + Sync>(
    rt: &R,
    alloc: Global,
    bits: u8,
    width: u32,
    height: u32,
    samples: &mut [u16],
) -> Result<String, Stop> {
    let params = film(alloc, bits, width, height)?;
    let Ok(grid) = grid(&params, u64::from(width), u64::from(height)) else {
        return Err(Stop::OutOfRange);
    };
    if !is_picture_of(&params, width, height, samples) {
        return Err(Stop::OutOfRange);
    }
    let mut bounds = vec![in alloc; 0usize; MOST_TILES + 1]?;
    let mut answers = no_slices(alloc)?;
    let mut workers = [NoScratch, NoScratch];
    let frame = encode_frame(
        rt,
        alloc,
        &params,
        &grid,
        bounds.as_mut_slice(),
        answers.as_mut_slice(),
        &mut workers,
        samples,
        &OpenGate,
    )?;
    answer::bytes(alloc, frame.as_slice())
}

fn frame<R: Threads + Sync>(
    rt: &R,
    alloc: Global,
    bits: &str,
    width: &str,
    height: &str,
    samples: &str,
) -> Result<String, Stop> {
    let (width, height) = (parse::number(width)?, parse::number(height)?);
    let (bits, mut samples) = (parse::number(bits)?, parse::numbers(alloc, samples)?);
    written(rt, alloc, bits, width, height, &mut samples)
}

fn coded<R: Threads + Sync>(
    rt: &R,
    alloc: Global,
    record: &str,
    width: &str,
    height: &str,
    bytes: &str,
) -> Result<String, Stop> {
    let (width, height) = (parse::number(width)?, parse::number(height)?);
    let bytes = parse::bytes(alloc, bytes)?;
    let params = recorded(alloc, record)?;
    match grid(&params, width, height) {
        Ok(grid) => picture(rt, alloc, &params, &grid, bytes.as_slice()),
        Err(_) => Ok(String::from_str(alloc, "GridBad")?),
    }
}

fn picture<R: Threads + Sync>(
    rt: &R,
    alloc: Global,
    params: &Params,
    grid: &Grid,
    bytes: &[u8],
) -> Result<String, Stop>
    requires { IsGridOf params.now grid.now }
{
    let mut parts = Parts::new();
    let mut bounds = vec![in alloc; 0usize; MOST_TILES + 1]?;
    let mut answers = vec![in alloc; Err(SliceWhy::BadStart); MOST_TILES]?;
    let mut scratch = [room(alloc, params, grid)?, room(alloc, params, grid)?];
    let mut buffer = vec![in alloc; 0u16; 3 * grid.width as usize * grid.height as usize]?;
    let told = decode_frame(
        rt,
        params,
        grid,
        bytes,
        &mut parts,
        bounds.as_mut_slice(),
        answers.as_mut_slice(),
        &mut scratch,
        buffer.as_mut_slice(),
        &OpenGate,
    );
    if let Err(why) = told {
        return picture_why(alloc, why);
    }
    let mut samples = vec![in alloc; 0u16; buffer.len()]?;
    let layout = Layout {
        big: true,
        bits: 16,
        width: grid.width,
        height: grid.height,
        head_len: 2048,
        stride: 6 * grid.width,
    };
    if !is_well_formed(&layout) {
        return Err(Stop::OutOfRange);
    }
    let tiles = tiles(alloc, params, grid, parts.as_slice())?;
    from_tiles(
        &layout,
        tiles.as_slice(),
        buffer.as_slice(),
        samples.as_mut_slice(),
    );
    answer::samples(alloc, samples.as_slice())
}

// The tiles of the parts.
fn tiles(alloc: Global, params: &Params, grid: &Grid, parts: &[Part]) -> Result<Vec<Tile>, Stop>
    requires { IsGridOf params.now grid.now }
    ensures { IfOk result (λ tiles. tiles.items ≡ tiles_of grid.now parts.now) }
{
    let mut tiles = Vec::new(alloc);
    for place in 0..parts.len() {
        let head = parts[place].head;
        if !is_inside(params, &head) {
            return Err(Stop::OutOfRange);
        }
        tiles.push(grid.tile(&head))?;
    }
    Ok(tiles)
}

fn picture_why(alloc: Global, why: PictureWhy) -> Result<String, Stop> {
    match why {
        PictureWhy::Frame(FrameWhy::Head(why)) => Ok(format!(in alloc; "Head {why:?}")?),
        PictureWhy::Frame(why) => Ok(format!(in alloc; "{why:?}")?),
        PictureWhy::Slice(number, why) => Ok(format!(in alloc; "Slice {number} {why:?}")?),
    }
}

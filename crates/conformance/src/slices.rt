// Slices of FFV1 frames.

ghost use Rattle.std.specs.Prelude.{◌≡◌, ◌^◌, IsTrue};
ghost use Rattle.ffv1_slice.specs.Laws.{IsInside};
ghost use Rattle.ffv1_slice.specs.Slice.{IsTile};

use crate::params::{film, recorded};
use crate::stop::Stop;
use crate::{answer, parse};
use ffv1_params::Params;
use ffv1_slice::{Scratch, SliceHead};
use std::alloc::Global;

/// The answer to a case of slices, if the words are one: a head and a tile that are coded, or bytes that are read, each behind
/// its parameters, which are those of the writer or of a record.
pub fn answer_to(alloc: Global, words: &[&str]) -> Option<Result<String, Stop>> {
    Some(match words {
        ["slice", words @ ..] => written(alloc, words),
        ["slice_of", words @ ..] => written(alloc, words),
        ["tile", words @ ..] => read(alloc, words),
        ["tile_of", words @ ..] => read(alloc, words),
        _ => return None,
    })
}

// The parameters that words say: the depth, width and height of the writer's, or a record.
fn params_of(alloc: Global, words: &[&str]) -> Result<Params, Stop> {
    match words {
        [bits, width, height] => {
            let (bits, width) = (parse::number(bits)?, parse::number(width)?);
            film(alloc, bits, width, parse::number(height)?)
        }
        [record] => recorded(alloc, record),
        _ => Err(Stop::Unreadable),
    }
}

fn written(alloc: Global, words: &[&str]) -> Result<String, Stop> {
    let [
        source @ ..,
        first,
        x,
        y,
        columns,
        rows,
        luma,
        difference,
        width,
        height,
        tile,
    ] = words
    else {
        return Err(Stop::Unreadable);
    };
    let head = SliceHead {
        x: parse::number(x)?,
        y: parse::number(y)?,
        columns: parse::number(columns)?,
        rows: parse::number(rows)?,
        indices: [parse::number(luma)?, parse::number(difference)?],
    };
    let (width, height) = (parse::number(width)?, parse::number(height)?);
    let (first, tile) = (parse::switch(first)?, parse::numbers(alloc, tile)?);
    let params = params_of(alloc, source)?;
    encoded(alloc, &params, &head, width, height, first, &tile)
}

fn read(alloc: Global, words: &[&str]) -> Result<String, Stop> {
    let [source @ .., first, width, height, coded] = words else {
        return Err(Stop::Unreadable);
    };
    let (width, height) = (parse::number(width)?, parse::number(height)?);
    let (first, coded) = (parse::switch(first)?, parse::bytes(alloc, coded)?);
    let params = params_of(alloc, source)?;
    decoded(alloc, &params, width, height, first, &coded)
}

fn encoded(
    alloc: Global,
    params: &Params,
    head: &SliceHead,
    width: u32,
    height: u32,
    first: bool,
    tile: &[u16],
) -> Result<String, Stop> {
    if width < 1 || width > 16384 || height < 1 || height > 16384 {
        return Err(Stop::OutOfRange);
    }
    if !is_inside(params, head) || !is_tile(params, width, height, tile) {
        return Err(Stop::OutOfRange);
    }
    let coded = ffv1_slice::encode(alloc, params, head, width, height, first, tile)?;
    answer::bytes(alloc, coded.as_slice())
}

fn decoded(
    alloc: Global,
    params: &Params,
    width: u32,
    height: u32,
    first: bool,
    coded: &[u8],
) -> Result<String, Stop> {
    if width < 1 || width > 16384 || height < 1 || height > 16384 {
        return Err(Stop::OutOfRange);
    }
    let mut scratch = Scratch::new(alloc, params.most_contexts(), width)?;
    let mut tile = vec![in alloc; 0u16; 3 * (width as usize * height as usize)]?;
    let room = tile.as_mut_slice();
    match ffv1_slice::decode(params, coded, width, height, first, room, &mut scratch) {
        Ok(head) => tile_told(alloc, &head, tile.as_slice()),
        Err(why) => Ok(format!(in alloc; "{why:?}")?),
    }
}

fn tile_told(alloc: Global, head: &SliceHead, tile: &[u16]) -> Result<String, Stop> {
    let SliceHead {
        x,
        y,
        columns,
        rows,
        indices: [luma, difference],
    } = head;
    let tile = answer::samples(alloc, tile)?;
    Ok(format!(in alloc; "{x} {y} {columns} {rows} {luma} {difference} {tile}")?)
}

/// Whether a head is inside the grid of the parameters, with sets that they have.
pub fn is_inside(params: &Params, head: &SliceHead) -> bool
    ensures { IsTrue result → IsInside params.now head.now }
{
    let across = u64::from(head.x) + u64::from(head.columns);
    let down = u64::from(head.y) + u64::from(head.rows);
    1 <= head.columns
        && 1 <= head.rows
        && across <= u64::from(params.columns())
        && down <= u64::from(params.rows())
        && head.indices[0] < params.sets()
        && head.indices[1] < params.sets()
}

/// Whether a tile has this size, and each of its samples the bits of the parameters.
pub fn is_tile(params: &Params, width: u32, height: u32, tile: &[u16]) -> bool
    ensures { IsTrue result → IsTile params.now.bits width height tile.now }
{
    let pixels = u64::from(width) * u64::from(height);
    let len = tile.len() as u64;
    let most = colours_of(params);
    len % 3 == 0 && len / 3 == pixels && tile.iter().all(|sample| u32::from(*sample) < most)
}

// How many values a colour has.
fn colours_of(params: &Params) -> u32
    ensures { result ≡ 2 ^ params.now.bits }
{
    match params.bits() {
        8 => 256,
        10 => 1024,
        12 => 4096,
        _ => 65536,
    }
}

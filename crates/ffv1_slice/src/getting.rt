// The rows of a tile, read.

ghost use Rattle.std.specs.Prelude.{◌≡◌, ℕ, ◌+◌, ◌*◌, ◌^◌, ◌<◌, ◌≤◌, length, replicate, slice_index, OnOk, IfOk, IfErr};
ghost use Rattle.range_coder.specs.Table.{AreLive};
ghost use Rattle.ffv1_params.specs.QuantTables.{most_contexts};
ghost use Rattle.ffv1_slice.specs.Planes.{ComeTo, AreBlank};
ghost use Rattle.ffv1_slice.specs.Reached.{RowsRead, RowsFail, SliceRead, SliceFails};
ghost use Rattle.ffv1_slice.specs.Room.{KeepsRoom};
ghost use Rattle.ffv1_slice.specs.Slice.{slots_of};

use crate::depth::{half_of, is_from_green};
use crate::lines::Planes;
use crate::reading::decode_planes;
use crate::store::store_row;
use crate::taking::get_front;
use crate::{SliceHead, SliceWhy};
use ffv1_params::Params;
use range_coder::{Decoder, laws};

/// Reads the rows of a tile, the planes being above its first line. It takes no memory.
#[tactic(auto, using(crate::proofs::Pixels::pixels))]
fn get_rows(
    decoder: &mut Decoder<'_>,
    params: &Params,
    head: &SliceHead,
    states: &mut [u8],
    planes: &mut Planes,
    tile: &mut [u16],
    width: usize,
    height: usize,
) -> Result<(), SliceWhy>
    requires some { 1 ≤ width }
    requires luma_index { slice_index head.now.indices 0 < length params.now.sets }
    requires difference_index { slice_index head.now.indices 1 < length params.now.sets }
    requires slots { length states.old ≡ slots_of (most_contexts params.now.sets) }
    requires live { AreLive params.now.table states.old }
    requires planes { AreBlank width planes.old }
    requires tile { length tile.old ≡ 3 * (width * height) }
    ensures ok { OnOk result (RowsRead params.now head.now (2 ^ params.now.bits) width decoder.old states.old decoder.new states.new planes.new tile.new height) }
    ensures err { IfErr result (RowsFail params.now head.now (2 ^ params.now.bits) width height decoder.old states.old) }
    ensures room { KeepsRoom planes.old planes.new }
{
    let half = half_of(params);
    let green_based = is_from_green(params);
    for y in 0..height {
        let Ok(()) = decode_planes(decoder, params, head, half, states, planes, width) else {
            return Err(SliceWhy::BadSymbol);
        };
        let luma = planes.luma.line.as_slice();
        let blue = planes.blue.line.as_slice();
        let red = planes.red.line.as_slice();
        if !store_row(half, green_based, luma, blue, red, tile, y * width, width) {
            return Err(SliceWhy::SampleRange);
        }
    }
    Ok(())
}

/// Reads a slice behind its start, the planes being above its first line. It takes no memory.
fn get_slice(
    decoder: &mut Decoder<'_>,
    params: &Params,
    states: &mut [u8],
    planes: &mut Planes,
    first: bool,
    tile: &mut [u16],
    width: usize,
    height: usize,
) -> Result<SliceHead, SliceWhy>
    requires some { 1 ≤ width }
    requires slots { length states.old ≡ slots_of (most_contexts params.now.sets) }
    requires planes { AreBlank width planes.old }
    requires tile { length tile.old ≡ 3 * (width * height) }
    ensures ok { IfOk result (λ head. SliceRead params.now first width height decoder.old head tile.new) }
    ensures err { IfErr result (SliceFails params.now first width height decoder.old) }
    ensures room { KeepsRoom planes.old planes.new }
{
    laws::sets_of_states();
    let _table = params.table();
    refresh(states);
    let head = get_front(decoder, params, states, first)?;
    get_rows(decoder, params, &head, states, planes, tile, width, height)?;
    Ok(head)
}

/// The same with as many of the states as the parameters ask for.
pub(crate) fn get_slice_with(
    decoder: &mut Decoder<'_>,
    params: &Params,
    states: &mut Vec<u8>,
    planes: &mut Planes,
    first: bool,
    tile: &mut [u16],
    width: usize,
    height: usize,
) -> Result<SliceHead, SliceWhy>
    requires some { 1 ≤ width }
    requires slots { slots_of (most_contexts params.now.sets) ≤ length states.old.items }
    requires planes { AreBlank width planes.old }
    requires tile { length tile.old ≡ 3 * (width * height) }
    ensures ok { IfOk result (λ head. SliceRead params.now first width height decoder.old head tile.new) }
    ensures err { IfErr result (SliceFails params.now first width height decoder.old) }
    ensures room { KeepsRoom planes.old planes.new }
    ensures count { length states.new.items ≡ length states.old.items }
{
    let slots = 33 + 64 * params.most_contexts() as usize;
    let states = &mut states.as_mut_slice()[..slots];
    get_slice(decoder, params, states, planes, first, tile, width, height)
}

// The states at the start of a slice.
fn refresh(states: &mut [u8])
    ensures { states.new ≡ replicate (length states.old) 128 }
{
    states.fill(128);
}

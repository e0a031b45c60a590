// A tile coded as a slice.

ghost use Rattle.std.specs.Prelude.{◌≡◌, ◌+◌, ◌*◌, ◌^◌, ◌≤◌, length, IsTrue, OnOk, IfOk};
ghost use Rattle.range_coder.specs.Interval.{coded};
ghost use Rattle.range_coder.specs.Table.{AreLive};
ghost use Rattle.ffv1_params.specs.QuantTables.{AreFlat, most_contexts};
ghost use Rattle.ffv1_slice.specs.Below.{IsHalf};
ghost use Rattle.ffv1_slice.specs.Blank.{IsBlank};
ghost use Rattle.ffv1_slice.specs.Laws.{IsInside};
ghost use Rattle.ffv1_slice.specs.Planes.{AreReady};
ghost use Rattle.ffv1_slice.specs.Putting.{PutsLine, PutsPlanes, PutsRows};
ghost use Rattle.ffv1_slice.specs.Slice.{slots_of, IsTile, slice_decisions};
ghost use Rattle.ffv1_slice.specs.Work.{AreSlots};

use crate::SliceHead;
use crate::depth::{half_of, is_from_green};
use crate::header::put_front;
use crate::lines::{Lines, Planes};
use crate::load::load_planes;
use crate::place::place_line;
use crate::row::row_of;
use cook_bits::{Bytes, NoMemory};
use ffv1_params::Params;
use range_coder::{Encoder, Placed, Table, laws};
use std::alloc::Global;

/// The slot at which the states of luma begin.
const LUMA_SLOT: u32 = 33;

/// A difference that isn't made yet.
const UNPLACED: Placed = Placed { first: 0, value: 0 };

/// Codes a line of a plane, the last of three lines.
#[tactic(auto, using(crate::proofs::Placing::placing))]
fn encode_plane(
    encoder: &mut Encoder,
    table: &Table,
    states: &mut [u8],
    half: u32,
    values: &[i16],
    flat: bool,
    first: u32,
    lines: &Lines,
    symbols: &mut [Placed],
) -> Result<(), NoMemory>
    requires half { IsHalf half }
    requires live { AreLive table.now states.old }
    requires flat { IsTrue flat → AreFlat values.now }
    requires slots { AreSlots values.now first (length states.old) }
    requires lines { AreReady (length symbols.old) (2 * half) lines.now }
    ensures ok { OnOk result (PutsLine table.now encoder.old states.old encoder.new states.new half values.now first lines.now (length symbols.old)) }
    ensures live { AreLive table.now states.new }
{
    place_line(
        half,
        values,
        flat,
        first,
        lines.above2.as_slice(),
        lines.above.as_slice(),
        lines.line.as_slice(),
        symbols,
    );
    encoder.put_symbols(table, states, symbols, true)
}

/// Codes the last lines of the planes.
fn encode_planes(
    encoder: &mut Encoder,
    params: &Params,
    head: &SliceHead,
    half: u32,
    states: &mut [u8],
    planes: &Planes,
    symbols: &mut [Placed],
) -> Result<(), NoMemory>
    requires half { half ≡ 2 ^ params.now.bits }
    requires is_half { IsHalf half }
    requires inside { IsInside params.now head.now }
    requires slots { length states.old ≡ slots_of (most_contexts params.now.sets) }
    requires live { AreLive params.now.table states.old }
    requires luma { AreReady (length symbols.old) (2 * half) planes.now.luma }
    requires blue { AreReady (length symbols.old) (2 * half) planes.now.blue }
    requires red { AreReady (length symbols.old) (2 * half) planes.now.red }
    ensures ok { OnOk result (PutsPlanes params.now head.now encoder.old states.old encoder.new states.new planes.now (length symbols.old)) }
    ensures live { AreLive params.now.table states.new }
{
    let table = params.table();
    let luma = params.values(head.indices[0]);
    let luma_flat = params.is_flat(head.indices[0]);
    encode_plane(
        encoder,
        table,
        states,
        half,
        luma,
        luma_flat,
        LUMA_SLOT,
        &planes.luma,
        symbols,
    )?;
    let first = LUMA_SLOT + 32 * params.most_contexts();
    let differences = params.values(head.indices[1]);
    let differences_flat = params.is_flat(head.indices[1]);
    encode_plane(
        encoder,
        table,
        states,
        half,
        differences,
        differences_flat,
        first,
        &planes.blue,
        symbols,
    )?;
    encode_plane(
        encoder,
        table,
        states,
        half,
        differences,
        differences_flat,
        first,
        &planes.red,
        symbols,
    )
}

/// Codes the rows of a tile, the planes being above its first line.
fn put_rows(
    encoder: &mut Encoder,
    params: &Params,
    head: &SliceHead,
    states: &mut [u8],
    planes: &mut Planes,
    symbols: &mut [Placed],
    tile: &[u16],
    height: usize,
) -> Result<(), NoMemory>
    requires some { 1 ≤ length symbols.old }
    requires inside { IsInside params.now head.now }
    requires tile { IsTile params.now.bits (length symbols.old) height tile.now }
    requires slots { length states.old ≡ slots_of (most_contexts params.now.sets) }
    requires live { AreLive params.now.table states.old }
    requires luma { IsBlank (length symbols.old + 3) planes.old.luma }
    requires blue { IsBlank (length symbols.old + 3) planes.old.blue }
    requires red { IsBlank (length symbols.old + 3) planes.old.red }
    ensures { OnOk result (PutsRows params.now head.now encoder.old states.old encoder.new states.new tile.now (length symbols.old) height) }
{
    let half = half_of(params);
    let green_based = is_from_green(params);
    let width = symbols.len();
    for y in 0..height {
        let pixels = row_of(tile, width, height, y, half);
        load_planes(planes, half, green_based, pixels, width);
        encode_planes(encoder, params, head, half, states, planes, symbols)?;
    }
    Ok(())
}

/// The coded bytes of a tile as a slice, without its footer. The tile has three colours a pixel, line by line, each
/// below two to the bits of the parameters; `first` says whether it is the first slice of its frame. For a tile of at
/// most 16,000,000 / 105 pixels the bytes are at most 16,001,000.
pub fn encode(
    alloc: Global,
    params: &Params,
    head: &SliceHead,
    width: u32,
    height: u32,
    first: bool,
    tile: &[u16],
) -> Result<Bytes, NoMemory>
    requires width_some { 1 ≤ width }
    requires width_most { width ≤ 16384 }
    requires height_some { 1 ≤ height }
    requires height_most { height ≤ 16384 }
    requires head { IsInside params.now head.now }
    requires tile { IsTile params.now.bits width height tile.now }
    ensures coded { IfOk result (λ bytes. bytes ≡ coded (slice_decisions params.now head.now width height first tile.now)) }
    ensures few { IfOk result (λ bytes. 105 * (width * height) ≤ 16000000 → length bytes ≤ 16001000) }
{
    laws::codings_are_joined();
    laws::code_lengths();
    laws::sets_of_states();
    let width = width as usize;
    let slots = 33 + 64 * params.most_contexts() as usize;
    let mut states = vec![in alloc; 128; slots]?;
    let mut planes = Planes::new(alloc, width + 3)?;
    let mut symbols = vec![in alloc; UNPLACED; width]?;
    let mut encoder = Encoder::new(alloc);
    encoder.reserve(2 * tile.len())?;
    let set = states.as_mut_slice();
    put_front(&mut encoder, params.table(), set, head, first)?;
    put_rows(
        &mut encoder,
        params,
        head,
        set,
        &mut planes,
        symbols.as_mut_slice(),
        tile,
        height as usize,
    )?;
    encoder.finish()
}

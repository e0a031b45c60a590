// Lines of samples read from coded bytes.

ghost use Rattle.std.specs.Prelude.{◌≡◌, ◌+◌, ◌*◌, ◌<◌, ◌≤◌, length, slice_index, IsTrue, OnOk, OnErr};
ghost use Rattle.range_coder.specs.Table.{AreLive};
ghost use Rattle.ffv1_params.specs.QuantTables.{AreFlat, most_contexts};
ghost use Rattle.ffv1_slice.specs.Below.{AreBelow, IsHalf};
ghost use Rattle.ffv1_slice.specs.Got.{GetsLine, LineFails, PlaneGot, PlaneFails, RowGot, RowFails};
ghost use Rattle.ffv1_slice.specs.Planes.{AreReady};
ghost use Rattle.ffv1_slice.specs.Room.{KeepsLength, KeepsRoom};
ghost use Rattle.ffv1_slice.specs.Slice.{slots_of};
ghost use Rattle.ffv1_slice.specs.Work.{AreSlots};

use crate::SliceHead;
use crate::lines::{Lines, Planes};
use crate::terms::{around_in, context_of, predicted, restored_of};
use ffv1_params::Params;
use range_coder::{BadSymbol, Decoder, Table};

/// The slot at which the states of luma begin.
const LUMA_SLOT: u32 = 33;

// Reads a line of a plane, the last of three lines, and writes its borders.
#[inline(always)]
#[tactic(auto, using(crate::proofs::SamplesRead::reading))]
fn decode_samples(
    decoder: &mut Decoder<'_>,
    table: &Table,
    states: &mut [u8],
    half: u32,
    values: &[i16],
    flat: bool,
    first: u32,
    above2: &[u32],
    above: &[u32],
    line: &mut [u32],
    width: usize,
) -> Result<(), BadSymbol>
    requires half { IsHalf half }
    requires some { 1 ≤ width }
    requires live { AreLive table.now states.old }
    requires flat { IsTrue flat → AreFlat values.now }
    requires slots { AreSlots values.now first (length states.old) }
    requires above2_long { width + 3 ≤ length above2.now }
    requires above_long { width + 3 ≤ length above.now }
    requires line_long { width + 3 ≤ length line.old }
    requires above2 { AreBelow (2 * half) above2.now }
    requires above { AreBelow (2 * half) above.now }
    requires line { AreBelow (2 * half) line.old }
    ensures ok { OnOk result (GetsLine table.now decoder.old states.old decoder.new states.new half values.now first above2.now above.now line.new width) }
    ensures err { OnErr result (LineFails table.now decoder.old states.old decoder.new states.new half values.now first above2.now above.now line.new width) }
{
    line[0] = 0;
    line[1] = above[2];
    for x in 0..width {
        let around = around_in(above2, above, line, x);
        let context = context_of(values, flat, around);
        let slot = first + 32 * context.unsigned_abs();
        let value = decoder.get_signed_at(table, states, slot as usize)?;
        line[x + 2] = restored_of(half, context < 0, predicted(around), value);
    }
    line[width + 2] = line[width + 1];
    Ok(())
}

// The same, with a reader in a local variable, so that its numbers can stand in registers.
fn decode_line(
    decoder: &mut Decoder<'_>,
    table: &Table,
    states: &mut [u8],
    half: u32,
    values: &[i16],
    flat: bool,
    first: u32,
    above2: &[u32],
    above: &[u32],
    line: &mut [u32],
    width: usize,
) -> Result<(), BadSymbol>
    requires half { IsHalf half }
    requires some { 1 ≤ width }
    requires live { AreLive table.now states.old }
    requires flat { IsTrue flat → AreFlat values.now }
    requires slots { AreSlots values.now first (length states.old) }
    requires above2_long { width + 3 ≤ length above2.now }
    requires above_long { width + 3 ≤ length above.now }
    requires line_long { width + 3 ≤ length line.old }
    requires above2 { AreBelow (2 * half) above2.now }
    requires above { AreBelow (2 * half) above.now }
    requires line { AreBelow (2 * half) line.old }
    ensures ok { OnOk result (GetsLine table.now decoder.old states.old decoder.new states.new half values.now first above2.now above.now line.new width) }
    ensures err { OnErr result (LineFails table.now decoder.old states.old decoder.new states.new half values.now first above2.now above.now line.new width) }
{
    let mut reader = decoder.copied();
    let read = decode_samples(
        &mut reader,
        table,
        states,
        half,
        values,
        flat,
        first,
        above2,
        above,
        line,
        width,
    );
    *decoder = reader;
    read
}

// Takes a plane a line down, and reads the line.
fn decode_plane(
    decoder: &mut Decoder<'_>,
    table: &Table,
    states: &mut [u8],
    half: u32,
    values: &[i16],
    flat: bool,
    first: u32,
    lines: &mut Lines,
    width: usize,
) -> Result<(), BadSymbol>
    requires half { IsHalf half }
    requires some { 1 ≤ width }
    requires live { AreLive table.now states.old }
    requires flat { IsTrue flat → AreFlat values.now }
    requires slots { AreSlots values.now first (length states.old) }
    requires lines { AreReady width (2 * half) lines.old }
    ensures ok { OnOk result (PlaneGot table.now decoder.old states.old decoder.new states.new half values.now first width lines.old lines.new) }
    ensures err { OnErr result (PlaneFails table.now decoder.old states.old decoder.new states.new half values.now first width lines.old) }
    ensures room { KeepsLength lines.old lines.new }
{
    lines.go_down();
    decode_line(
        decoder,
        table,
        states,
        half,
        values,
        flat,
        first,
        lines.above2.as_slice(),
        lines.above.as_slice(),
        lines.line.as_mut_slice(),
        width,
    )
}

/// Reads the lines of a row. It takes no memory.
#[tactic(auto, using(crate::proofs::Rooms::rooms))]
pub(crate) fn decode_planes(
    decoder: &mut Decoder<'_>,
    params: &Params,
    head: &SliceHead,
    half: u32,
    states: &mut [u8],
    planes: &mut Planes,
    width: usize,
) -> Result<(), BadSymbol>
    requires half { IsHalf half }
    requires some { 1 ≤ width }
    requires luma_index { slice_index head.now.indices 0 < length params.now.sets }
    requires difference_index { slice_index head.now.indices 1 < length params.now.sets }
    requires slots { length states.old ≡ slots_of (most_contexts params.now.sets) }
    requires live { AreLive params.now.table states.old }
    requires luma { AreReady width (2 * half) planes.old.luma }
    requires blue { AreReady width (2 * half) planes.old.blue }
    requires red { AreReady width (2 * half) planes.old.red }
    ensures ok { OnOk result (RowGot params.now head.now half width decoder.old states.old decoder.new states.new planes.old planes.new) }
    ensures err { OnErr result (RowFails params.now head.now half width decoder.old states.old decoder.new states.new planes.old) }
    ensures room { KeepsRoom planes.old planes.new }
{
    let table = params.table();
    let luma = params.values(head.indices[0]);
    let luma_flat = params.is_flat(head.indices[0]);
    decode_plane(
        decoder,
        table,
        states,
        half,
        luma,
        luma_flat,
        LUMA_SLOT,
        &mut planes.luma,
        width,
    )?;
    let first = LUMA_SLOT + 32 * params.most_contexts();
    let differences = params.values(head.indices[1]);
    let differences_flat = params.is_flat(head.indices[1]);
    decode_plane(
        decoder,
        table,
        states,
        half,
        differences,
        differences_flat,
        first,
        &mut planes.blue,
        width,
    )?;
    decode_plane(
        decoder,
        table,
        states,
        half,
        differences,
        differences_flat,
        first,
        &mut planes.red,
        width,
    )
}

// A picture coded as a frame by workers.

ghost use Rattle.std.specs.Prelude.{◌≡◌, ◌+◌, ◌<◌, ◌≤◌, All, IfOk, OnOk, drop, length};
ghost use Rattle.ffv1_frame.specs.Grid.{IsGridOf};
ghost use Rattle.ffv1_frame.specs.Written.{film_frame, film_slices, AreFilmOf, IsPictureIn};
ghost use Rattle.ffv1_workers.specs.Encoding.{AddsSlice, AreCoded, IsFrameOf, IsShortSlice, answer_of};

use crate::starts::place_rows;
use crate::{EncodeTask, MOST_TILES, NoScratch};
use cook_bits::{Bytes, NoMemory};
use dpx_packing::tile_laws::{tiles_fill, tiles_hold_their_pixels, whole_lines_stand};
use ffv1_frame::laws::film_tiles;
use ffv1_frame::{FOOTER_LEN, Grid, append_slice};
use ffv1_params::Params;
use slice_pool::{Gate, run_tiles};
use std::alloc::Global;
use std::marker::Sync;
use std::mem;
use std::thread::Threads;

/// Answers to lend to `encode_frame`: as many as a frame has tiles at most, none of them given yet.
pub fn no_slices(alloc: Global) -> Result<Vec<Result<Bytes, NoMemory>>, NoMemory>
    ensures { IfOk result (λ answers. length answers.items ≡ 1024) }
{
    let mut answers = Vec::with_capacity(alloc, MOST_TILES)?;
    for _ in 0..MOST_TILES {
        answers.push(Err(NoMemory))?;
    }
    Ok(answers)
}

// The bytes of the frame of the answered slices, or the greatest number there is.
fn room_for(answers: &[Result<Bytes, NoMemory>]) -> usize {
    let mut room = 0usize;
    for i in 0..answers.len() {
        if let Ok(slice) = &answers[i] {
            room = room.saturating_add(slice.as_slice().len().saturating_add(FOOTER_LEN));
        }
    }
    room
}

// Adds the slice that was answered for a number to a frame, and takes it from the answers.
fn move_slice(
    answers: &mut [Result<Bytes, NoMemory>],
    number: usize,
    frame: &mut Vec<u8>,
) -> Result<(), NoMemory>
    requires listed { number < length answers.old }
    requires short { IsShortSlice (answer_of answers.old number) }
    ensures added { OnOk result (AddsSlice (answer_of answers.old number) frame.old.items frame.new.items) }
    ensures rest { drop (number + 1) answers.new ≡ drop (number + 1) answers.old }
{
    let slice = mem::replace(&mut answers[number], Err(NoMemory))?;
    append_slice(frame, slice.as_slice())
}

// The frame of the slices that were answered, or that there was no memory for one.
fn frame_of(alloc: Global, answers: &mut [Result<Bytes, NoMemory>]) -> Result<Bytes, NoMemory>
    requires { All IsShortSlice answers.old }
    ensures { IfOk result (IsFrameOf answers.old) }
{
    let mut frame = Vec::with_capacity(alloc, room_for(answers))?;
    for number in 0..answers.len() {
        move_slice(answers, number, &mut frame)?;
    }
    Ok(Bytes::from_vec(frame))
}

// Codes the rows of a picture, each as its slice.
fn encode_rows<R: Threads + Sync, G: Gate + Sync>(
    rt: &R,
    task: &EncodeTask<'_>,
    bounds: &mut [usize],
    workers: &mut [NoScratch],
    answers: &mut [Result<Bytes, NoMemory>],
    buffer: &mut [u16],
    gate: &G,
)
    requires film { AreFilmOf task.now.params.now task.now.grid.now.width task.now.grid.now.height }
    requires grid { IsGridOf task.now.params.now task.now.grid.now }
    requires picture { IsPictureIn task.now.params.now.bits task.now.grid.now.width task.now.grid.now.height buffer.old }
    requires bounds { length bounds.old ≡ task.now.grid.now.rows + 1 }
    requires answers { length answers.old ≡ task.now.grid.now.rows }
    requires some { 0 < length workers.old }
    requires few { length workers.old < 4294967296 }
    ensures coded { AreCoded (film_slices task.now.params.now task.now.grid.now.width task.now.grid.now.height buffer.old) answers.new }
    ensures same { buffer.new ≡ buffer.old }
{
    film_tiles();
    tiles_fill();
    tiles_hold_their_pixels();
    whole_lines_stand();
    let _columns = task.params.columns();
    place_rows(task.grid, bounds);
    run_tiles(rt, task, buffer, bounds, workers, answers, gate);
}

/// Codes a picture, whose samples stand line by line, as the frame that this project writes: slices of whole lines, each
/// coded by one of as many workers as given, each of which passes the gate before its first. The buffer is as it was, whatever
/// the answer. `bounds` is lent for the places of the slices, and `answers` for the slices.
pub fn encode_frame<R: Threads + Sync, G: Gate + Sync>(
    rt: &R,
    alloc: Global,
    params: &Params,
    grid: &Grid,
    bounds: &mut [usize],
    answers: &mut [Result<Bytes, NoMemory>],
    workers: &mut [NoScratch],
    buffer: &mut [u16],
    gate: &G,
) -> Result<Bytes, NoMemory>
    requires film { AreFilmOf params.now grid.now.width grid.now.height }
    requires grid { IsGridOf params.now grid.now }
    requires picture { IsPictureIn params.now.bits grid.now.width grid.now.height buffer.old }
    requires bounds { 1025 ≤ length bounds.old }
    requires answers { 1024 ≤ length answers.old }
    requires some { 0 < length workers.old }
    requires few { length workers.old < 4294967296 }
    ensures exact { IfOk result (λ frame. frame ≡ film_frame params.now grid.now.width grid.now.height buffer.old) }
    ensures same { buffer.new ≡ buffer.old }
{
    film_tiles();
    let count = grid.rows as usize;
    let answers = &mut answers[..count];
    let task = EncodeTask {
        alloc,
        params,
        grid,
    };
    encode_rows(
        rt,
        &task,
        &mut bounds[..count + 1],
        workers,
        answers,
        buffer,
        gate,
    );
    frame_of(alloc, answers)
}

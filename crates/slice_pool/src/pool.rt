// The shares of the workers: halved until each has one, and its tiles run one after the other.

ghost use Rattle.std.specs.Prelude.{◌≡◌, ◌+◌, ◌-◌, ◌<◌, ◌≤◌, All, length};
ghost use Rattle.std.specs.Thread.{IsSync, IsSend};
ghost use Rattle.slice_pool.specs.Tiles.{AreBounds, AreTaken, AreDone, IsAscending, bound};
ghost use Rattle.slice_pool.specs.Shares.{first_tile};
ghost use Rattle.slice_pool.specs.Parts.{AreShares, IsCut, IsSound, PartTaken, PartDone};

use crate::shares::first_tile;
use crate::{Gate, TileTask};
use std::marker::{Send, Sync};
use std::thread::{Threads, join_mut};

// What all shares look at.
#[derive(Drop)]
struct Work<'a, R, T, G> {
    rt: &'a R,
    task: &'a T,
    gate: &'a G,
    bounds: &'a [usize],
    workers: usize,
}

// How far a bound is behind another.
fn place_behind(bounds: &[usize], first: usize, k: usize) -> usize
    requires ascending { IsAscending bounds.now }
    requires order { first ≤ k }
    requires inside { k < length bounds.now }
    ensures { result ≡ bound bounds.now k - bound bounds.now first }
{
    bounds[k] - bounds[first]
}

// The first tile of the second half of the shares, of which the first half has so many.
fn cut_at(
    bounds: &[usize],
    workers: usize,
    share: usize,
    shares: usize,
    low: usize,
    first: usize,
    count: usize,
) -> usize
    requires sound { IsSound bounds.now workers }
    requires shares { AreShares bounds.now workers share shares first count }
    requires inside { first + count < length bounds.now }
    requires low { low ≤ shares }
    ensures exact { result ≡ first_tile (length bounds.now - 1) workers (share + low) }
    ensures cut { IsCut bounds.now first count result }
{
    first_tile(bounds.len() - 1, workers, share + low)
}

// Runs the tiles from one on, one after the other.
fn run_in_turn<R, T: TileTask, G>(
    work: &Work<'_, R, T, G>,
    first: usize,
    part: &mut [u16],
    scratch: &mut T::Scratch,
    answers: &mut [T::Answer],
)
    requires sound { IsSound work.now.bounds.now work.now.workers }
    requires taken { PartTaken (T.Takes work.now.task.now) work.now.bounds.now first (length answers.old) part.old }
    requires fits { T.Fits work.now.task.now scratch.old }
    ensures done { PartDone (T.Does work.now.task.now) work.now.bounds.now first part.old part.new answers.new }
    ensures fits { T.Fits work.now.task.now scratch.new }
{
    for i in 0..answers.len() {
        let number = first + i;
        let from = place_behind(work.bounds, first, number);
        let to = place_behind(work.bounds, first, number + 1);
        answers[i] = work.task.run(number, &mut part[from..to], scratch);
    }
}

// Runs the tiles of a share, if it has any, behind its gate.
fn run_share<R, T: TileTask, G: Gate>(
    work: &Work<'_, R, T, G>,
    share: usize,
    first: usize,
    part: &mut [u16],
    scratch: &mut T::Scratch,
    answers: &mut [T::Answer],
)
    requires share { share < 4294967296 }
    requires sound { IsSound work.now.bounds.now work.now.workers }
    requires taken { PartTaken (T.Takes work.now.task.now) work.now.bounds.now first (length answers.old) part.old }
    requires fits { T.Fits work.now.task.now scratch.old }
    ensures done { PartDone (T.Does work.now.task.now) work.now.bounds.now first part.old part.new answers.new }
    ensures fits { T.Fits work.now.task.now scratch.new }
{
    if !answers.is_empty() {
        work.gate.pass(share as u32);
    }
    run_in_turn(work, first, part, scratch, answers);
}

// Runs the shares from one on, so many as there are scratches. Their tiles are those from a tile on.
#[cycle(halves)]
fn run_shares<R: Threads + Sync, T: TileTask, G: Gate + Sync>(
    work: &Work<'_, R, T, G>,
    share: usize,
    shares: usize,
    first: usize,
    part: &mut [u16],
    scratch: &mut [T::Scratch],
    answers: &mut [T::Answer],
)
    requires sound { IsSound work.now.bounds.now work.now.workers }
    requires shares { AreShares work.now.bounds.now work.now.workers share shares first (length answers.old) }
    requires scratches { length scratch.old ≡ shares }
    requires taken { PartTaken (T.Takes work.now.task.now) work.now.bounds.now first (length answers.old) part.old }
    requires fit { All (λ s. T.Fits work.now.task.now s) scratch.old }
    ensures done { PartDone (T.Does work.now.task.now) work.now.bounds.now first part.old part.new answers.new }
    ensures fit { All (λ s. T.Fits work.now.task.now s) scratch.new }
{
    if shares == 1 {
        run_share(work, share, first, part, &mut scratch[0], answers);
        return;
    }
    let low = shares / 2;
    let next = cut_at(
        work.bounds,
        work.workers,
        share,
        shares,
        low,
        first,
        answers.len(),
    );
    let cut = place_behind(work.bounds, first, next);
    let (left, right) = part.split_at_mut(cut);
    let (left_scratch, right_scratch) = scratch.split_at_mut(low);
    let (left_answers, right_answers) = answers.split_at_mut(next - first);
    both_halves(
        work,
        share,
        low,
        first,
        left,
        left_scratch,
        left_answers,
        share + low,
        shares - low,
        next,
        right,
        right_scratch,
        right_answers,
    );
}

// The halves run beside one another. A function of its own, so that what the closures require is what it is given.
#[cycle(halves)]
fn both_halves<R: Threads + Sync, T: TileTask, G: Gate + Sync>(
    work: &Work<'_, R, T, G>,
    share: usize,
    shares: usize,
    first: usize,
    part: &mut [u16],
    scratch: &mut [T::Scratch],
    answers: &mut [T::Answer],
    next_share: usize,
    next_shares: usize,
    next_first: usize,
    next_part: &mut [u16],
    next_scratch: &mut [T::Scratch],
    next_answers: &mut [T::Answer],
)
    requires sound { IsSound work.now.bounds.now work.now.workers }
    requires shares { AreShares work.now.bounds.now work.now.workers share shares first (length answers.old) }
    requires scratches { length scratch.old ≡ shares }
    requires taken { PartTaken (T.Takes work.now.task.now) work.now.bounds.now first (length answers.old) part.old }
    requires fit { All (λ s. T.Fits work.now.task.now s) scratch.old }
    requires next_shares { AreShares work.now.bounds.now work.now.workers next_share next_shares next_first (length next_answers.old) }
    requires next_scratches { length next_scratch.old ≡ next_shares }
    requires next_taken { PartTaken (T.Takes work.now.task.now) work.now.bounds.now next_first (length next_answers.old) next_part.old }
    requires next_fit { All (λ s. T.Fits work.now.task.now s) next_scratch.old }
    ensures done { PartDone (T.Does work.now.task.now) work.now.bounds.now first part.old part.new answers.new }
    ensures fit { All (λ s. T.Fits work.now.task.now s) scratch.new }
    ensures next_done { PartDone (T.Does work.now.task.now) work.now.bounds.now next_first next_part.old next_part.new next_answers.new }
    ensures next_fit { All (λ s. T.Fits work.now.task.now s) next_scratch.new }
{
    let mut front = ||
        requires sync { IsSync R.row × IsSync T.row × IsSync G.row }
        requires sound { IsSound work.now.bounds.now work.now.workers }
        requires shares { AreShares work.now.bounds.now work.now.workers share shares first (length answers.now) }
        requires scratches { length scratch.now ≡ shares }
        requires taken { PartTaken (T.Takes work.now.task.now) work.now.bounds.now first (length answers.now) part.now }
        requires fit { All (λ s. T.Fits work.now.task.now s) scratch.now }
        ensures done { PartDone (T.Does work.entry.now.task.now) work.entry.now.bounds.now first part.entry.now part.exit.now answers.exit.now }
        ensures fit { All (λ s. T.Fits work.entry.now.task.now s) scratch.exit.now }
    { run_shares(work, share, shares, first, part, scratch, answers) };
    let mut back = ||
        requires sync { IsSync R.row × IsSync T.row × IsSync G.row }
        requires sound { IsSound work.now.bounds.now work.now.workers }
        requires shares { AreShares work.now.bounds.now work.now.workers next_share next_shares next_first (length next_answers.now) }
        requires scratches { length next_scratch.now ≡ next_shares }
        requires taken { PartTaken (T.Takes work.now.task.now) work.now.bounds.now next_first (length next_answers.now) next_part.now }
        requires fit { All (λ s. T.Fits work.now.task.now s) next_scratch.now }
        ensures done { PartDone (T.Does work.entry.now.task.now) work.entry.now.bounds.now next_first next_part.entry.now next_part.exit.now next_answers.exit.now }
        ensures fit { All (λ s. T.Fits work.entry.now.task.now s) next_scratch.exit.now }
    {
        run_shares(
            work,
            next_share,
            next_shares,
            next_first,
            next_part,
            next_scratch,
            next_answers,
        )
    };
    join_mut(work.rt, &mut front, &mut back);
}

/// Runs the task over each tile of the buffer. Workers are as many as scratches; of n tiles and w workers, share k has the
/// tiles from floor(k*n/w) on, up to the next share's. Each share that has tiles passes the gate once and then runs its
/// tiles in order with its scratch; shares run beside one another where threads can be made. Afterwards each tile and each
/// answer stand in the task's relation for the tile's number, for every number of scratches. It takes no memory.
pub fn run_tiles<R: Threads + Sync, T: TileTask, G: Gate + Sync>(
    rt: &R,
    task: &T,
    buffer: &mut [u16],
    bounds: &[usize],
    scratch: &mut [T::Scratch],
    answers: &mut [T::Answer],
    gate: &G,
)
    requires bounds { AreBounds bounds.now (length buffer.old) (length answers.old) }
    requires taken { AreTaken (T.Takes task.now) bounds.now (length answers.old) buffer.old }
    requires some { 0 < length scratch.old }
    requires few { length scratch.old < 4294967296 }
    requires fit { All (λ s. T.Fits task.now s) scratch.old }
    ensures done { AreDone (T.Does task.now) bounds.now buffer.old buffer.new answers.new }
    ensures fit { All (λ s. T.Fits task.now s) scratch.new }
{
    let workers = scratch.len();
    let work = Work {
        rt,
        task,
        gate,
        bounds,
        workers,
    };
    run_shares(&work, 0, workers, 0, buffer, scratch, answers);
}

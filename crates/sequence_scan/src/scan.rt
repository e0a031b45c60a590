ghost use Rattle.std.specs.Prelude.{◌≡◌, ◌+◌, ◌<◌, ◌^◌, length, nat_eq, vec_len, unwrap_or, IfOk, OnOk};
ghost use Rattle.std.specs.Option.{ForSome};
ghost use Rattle.indexmap.specs.IndexMap.{get};
ghost use Rattle.sequence_scan.specs.Runs.{AreFrames, runs_of};
ghost use Rattle.sequence_scan.specs.Scanning.{AreLastBelow, run_going_on, runs_below, same_sequence, with_frame};

use crate::number::{NumberedName, Sequence, numbered};
use crate::{Members, Run};
use cook_bits::{Name, NoMemory};
use indexmap::IndexMap;
use std::alloc::Global;

/// The last frame so far of a numbered sequence: its run and its number.
#[derive(Clone, Copy)]
pub(crate) struct LastFrame {
    run: usize,
    number: u64,
}

fn is_one_above(number: u64, before: u64) -> bool
    ensures { result ≡ nat_eq (before + 1) number }
{
    before < number && number - before == 1
}

// The run that a frame goes on with: that of its sequence's last frame, if its number is one above.
#[tactic(auto, unfolding(crate::specs::Scanning::run_going_on))]
fn run_before(last: &IndexMap<Sequence<'_>, LastFrame>, frame: &NumberedName<'_>) -> Option<usize>
    ensures { result ≡ run_going_on (get same_sequence last.now frame.now.sequence) frame.now.number }
{
    match last.get(&frame.sequence).copied() {
        Some(before) if is_one_above(frame.number, before.number) => Some(before.run),
        _ => None,
    }
}

// Begins a run with the frame at a place.
#[tactic(auto, unfolding(crate::specs::Scanning::with_frame))]
fn begin_run(alloc: Global, runs: &mut Vec<Run>, place: u32) -> Result<(), NoMemory>
    ensures { OnOk result (runs.new.items ≡ with_frame runs.old.items None place) }
{
    let mut members = Members::new(alloc);
    members.push(place)?;
    runs.push(Run {
        first: place,
        members,
    })?;
    Ok(())
}

// Adds the frame at a place to that run, or begins a run with it. Answers its run.
#[tactic(auto, unfolding(crate::specs::Scanning::with_frame))]
fn add_to_runs(
    alloc: Global,
    runs: &mut Vec<Run>,
    run: Option<usize>,
    place: u32,
) -> Result<usize, NoMemory>
    requires { ForSome run (λ r. r < vec_len runs.old) }
    ensures runs { OnOk result (runs.new.items ≡ with_frame runs.old.items run place) }
    ensures run { IfOk result (λ r. r ≡ unwrap_or run (vec_len runs.old)) }
{
    let Some(run) = run else {
        let begun = runs.len();
        begin_run(alloc, runs, place)?;
        return Ok(begun);
    };
    runs[run].members.push(place)?;
    Ok(run)
}

// Adds the frame at a place to the runs of the frames before it.
fn add_frame<'a>(
    alloc: Global,
    names: &'a [Name],
    place: usize,
    runs: &mut Vec<Run>,
    last: &mut IndexMap<Sequence<'a>, LastFrame>,
) -> Result<(), NoMemory>
    requires few { length names.now < 2 ^ 32 }
    requires frames { AreFrames names.now }
    requires listed { place < length names.now }
    requires runs { runs.old.items ≡ runs_below names.now place }
    requires last { AreLastBelow names.now place last.old }
    ensures runs { OnOk result (runs.new.items ≡ runs_below names.now (place + 1)) }
    ensures last { OnOk result (AreLastBelow names.now (place + 1) last.new) }
{
    let Some(frame) = numbered(names[place].as_str()) else {
        let _run = add_to_runs(alloc, runs, None, place as u32)?;
        return Ok(());
    };
    let before = run_before(last, &frame);
    let run = add_to_runs(alloc, runs, before, place as u32)?;
    let number = frame.number;
    last.insert(frame.sequence, LastFrame { run, number })?;
    Ok(())
}

/// The runs of a listing of frames, in the order of their first places. The names are fewer than 2^32,
/// each at least four bytes long, in byte order and none twice. `NoMemory` is answered where there is no
/// memory for the answer or for the last frame of each sequence.
pub fn runs(alloc: Global, names: &[Name]) -> Result<Vec<Run>, NoMemory>
    requires few { length names.now < 2 ^ 32 }
    requires frames { AreFrames names.now }
    ensures { IfOk result (λ runs. runs.items ≡ runs_of names.now) }
{
    let mut runs = Vec::new(alloc);
    let mut last = IndexMap::new(alloc);
    for place in 0..names.len() {
        add_frame(alloc, names, place, &mut runs, &mut last)?;
    }
    Ok(runs)
}

// Quantization tables, filled in from the lengths of their runs.

ghost use Rattle.std.specs.Prelude.{◌≡◌, ◌↔◌, IsTrue, ℕ, ◌+◌, ◌-◌, ◌*◌, ◌/◌, ◌^◌, ◌<◌, ◌≤◌, ◌++◌, length, replicate, slice_index, IfOk, OnOk, pos, All};
ghost use Rattle.std.specs.Prelude.{map, unsigned_abs};
ghost use Rattle.std.specs.Int.{int_rem_euclid};
ghost use Rattle.std.specs.List.{range_with_len};
ghost use Rattle.ffv1_params.specs.QuantTables.{steps_of, height, entry, table_of, context_count, set_of, quant_at, IsTable, TellsContexts, AreFlat};

use cook_bits::{Bytes, NoMemory};
use std::alloc::Global;
use std::marker::Model;

/// The places of a table, one for each difference modulo 256.
const PLACES: usize = 256;

/// The places of the tables of a set.
const SET_PLACES: usize = 1280;

/// A set of five quantization tables, with their values filled in, and how many contexts they tell apart.
#[derive(Drop)]
pub(crate) struct TableSet {
    values: [i16; SET_PLACES],
    contexts: u32,
    flat: bool,
}

impl Model for TableSet {
    ghost use Rattle.ffv1_params.specs.QuantTables.{QuantSet};
    ghost use Rattle.ffv1_params.specs.SetFields.{IsSet};

    ghost Value = { QuantSet };

    ghost view = { λ s. record { values = s.values; contexts = s.contexts } };

    ghost invariant = { λ s. IsSet s.values s.contexts s.flat };
}

impl TableSet {
    // The set of the tables that have runs of these lengths.
    pub(crate) fn of_runs(alloc: Global, tables: &[Bytes]) -> Result<TableSet, NoMemory>
        requires five { length tables.now ≡ 5 }
        requires tables { All IsTable tables.now }
        requires few { context_count tables.now ≤ 32768 }
        ensures { IfOk result (λ set. set ≡ set_of tables.now) }
    {
        let mut filled = Vec::with_capacity(alloc, SET_PLACES)?;
        let mut scale = 1;
        for runs in tables {
            let runs = runs.as_slice();
            push_table(alloc, &mut filled, runs, scale)?;
            scale *= 2 * runs.len() as u32 - 1;
        }
        let mut values = [0; SET_PLACES];
        values.copy_from_slice(filled.as_slice());
        let flat = are_flat(&values);
        Ok(TableSet {
            values,
            contexts: (scale + 1) / 2,
            flat,
        })
    }

    #[inline(always)]
    pub(crate) fn values(&self) -> &[i16]
        ensures values { result.now ≡ self.now.values }
        ensures tell { TellsContexts self.now }
    {
        &self.values
    }

    #[inline(always)]
    pub(crate) fn is_flat(&self) -> bool
        ensures { IsTrue result ↔ AreFlat self.now.values }
    {
        self.flat
    }

    pub(crate) fn contexts(&self) -> u32
        ensures count { result ≡ self.now.contexts }
        ensures tell { TellsContexts self.now }
    {
        self.contexts
    }

    #[inline(always)]
    pub(crate) fn quant(&self, table: u32, difference: i32) -> i32
        requires { table < 5 }
        ensures { result ≡ quant_at self.now table (unsigned_abs (int_rem_euclid difference (pos 256))) }
    {
        let place = difference.rem_euclid(256) as usize;
        i32::from(self.values[PLACES * table as usize + place])
    }
}

// Whether the last two tables have no value but 0.
fn are_flat(values: &[i16]) -> bool
    requires { length values.now ≡ 1280 }
    ensures { IsTrue result ↔ AreFlat values.now }
{
    for place in 3 * PLACES..SET_PLACES {
        if values[place] != 0 {
            return false;
        }
    }
    true
}

// The number of the run in which each place of the first half stands.
fn steps_in(alloc: Global, runs: &[u8]) -> Result<Vec<u8>, NoMemory>
    requires { IsTable runs.now }
    ensures { IfOk result (λ v. v.items ≡ steps_of runs.now) }
{
    let mut steps = Vec::with_capacity(alloc, PLACES / 2)?;
    let mut step = 0;
    for run in runs {
        push_run(&mut steps, step, *run)?;
        step += 1;
    }
    Ok(steps)
}

fn push_run(steps: &mut Vec<u8>, step: u8, run: u8) -> Result<(), NoMemory>
    ensures { OnOk result (steps.new.items ≡ steps.old.items ++ replicate run step) }
{
    for _ in 0..run {
        steps.push(step)?;
    }
    Ok(())
}

fn push_table(alloc: Global, values: &mut Vec<i16>, runs: &[u8], scale: u32) -> Result<(), NoMemory>
    requires table { IsTable runs.now }
    requires few { (length runs.now - 1) * scale ≤ 32767 }
    ensures { OnOk result (values.new.items ≡ values.old.items ++ table_of scale runs.now) }
{
    let steps = steps_in(alloc, runs)?;
    push_entries(values, steps.as_slice(), scale)
}

fn push_entries(values: &mut Vec<i16>, steps: &[u8], scale: u32) -> Result<(), NoMemory>
    requires long { length steps.now ≡ 128 }
    requires few { (k : ℕ) → k < 128 → slice_index steps.now k * scale ≤ 32767 }
    ensures { OnOk result (values.new.items ≡ values.old.items ++ map (entry scale steps.now) (range_with_len 0 256)) }
{
    for place in 0..PLACES {
        values.push(entry_at(steps, scale, place))?;
    }
    Ok(())
}

fn entry_at(steps: &[u8], scale: u32, place: usize) -> i16
    requires long { length steps.now ≡ 128 }
    requires place { place < 256 }
    requires few { (k : ℕ) → k < 128 → slice_index steps.now k * scale ≤ 32767 }
    ensures { result ≡ entry scale steps.now place }
{
    if place < 128 {
        height_at(steps, scale, place)
    } else if place == 128 {
        -height_at(steps, scale, 127)
    } else {
        -height_at(steps, scale, PLACES - place)
    }
}

fn height_at(steps: &[u8], scale: u32, place: usize) -> i16
    requires place { place < length steps.now }
    requires few { slice_index steps.now place * scale ≤ 32767 }
    ensures value { result ≡ pos (height scale steps.now place) }
    ensures few { height scale steps.now place ≤ 32767 }
{
    (u32::from(steps[place]) * scale) as i16
}

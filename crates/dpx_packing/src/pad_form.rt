// How a frame's pads are written into the side data.

ghost use Rattle.std.specs.Prelude.{◌≡◌, ◌∷◌, ◌==◌, ◌≤◌, ◌<◌, ◌^◌, length, IfOk};
ghost use Rattle.std.specs.Int.{bytes_high_first};
ghost use Rattle.std.specs.List.{list_all};
ghost use Rattle.dpx_packing.specs.PadForms.{pad_form_of, runs_form, runs_of, values_form};

use crate::pad_runs::{first_run, run_count};
use cook_bits::{Bytes, NoMemory};
use std::alloc::Global;

/// The form that every pad is zero.
pub const ZEROS: u8 = 0;

/// The form by runs.
pub const RUNS: u8 = 1;

/// The form by values.
pub const VALUES: u8 = 2;

/// The pads in their shortest form: a zero byte where every pad is zero or there is none, else the
/// runs or the values, whichever is shorter. Memory is taken once.
#[tactic(auto, using(crate::proofs::PadChoice::choices))]
pub fn pad_record(alloc: Global, pads: &[u8]) -> Result<Bytes, NoMemory>
    requires { length pads.now < 2 ^ 32 }
    ensures { IfOk result (λ form. form ≡ pad_form_of pads.now) }
{
    let runs = run_count(pads);
    if are_zero(pads, runs) {
        return Ok(Bytes::copy(alloc, &[ZEROS])?);
    }
    if 5 * runs <= pads.len() {
        write_runs(alloc, pads, runs)
    } else {
        write_values(alloc, pads)
    }
}

// `runs` is how many runs there are.
#[tactic(auto, using(crate::proofs::PadChoice::choices))]
fn are_zero(pads: &[u8], runs: usize) -> bool
    requires { runs ≡ length (runs_of pads.now) }
    ensures { result ≡ list_all (λ value. value == 0) pads.now }
{
    match pads {
        [] => true,
        [first, ..] => runs == 1 && *first == 0,
    }
}

// What a form by runs or values begins with, in a list that has room for `more` bytes after it.
fn begun(alloc: Global, kind: u8, count: usize, more: usize) -> Result<Vec<u8>, NoMemory>
    requires count { count < 2 ^ 32 }
    requires more { more < 2 ^ 40 }
    ensures { IfOk result (λ form. form.items ≡ kind ∷ bytes_high_first 4 count) }
{
    let mut form = Vec::with_capacity(alloc, 5 + more)?;
    form.push(kind)?;
    form.extend_from_slice(&(count as u32).to_be_bytes())?;
    Ok(form)
}

#[tactic(auto, unfolding(crate::specs::PadForms::values_form))]
fn write_values(alloc: Global, pads: &[u8]) -> Result<Bytes, NoMemory>
    requires { length pads.now < 2 ^ 32 }
    ensures { IfOk result (λ form. form ≡ values_form pads.now) }
{
    let mut form = begun(alloc, VALUES, pads.len(), pads.len())?;
    form.extend_from_slice(pads)?;
    Ok(Bytes::from_vec(form))
}

// `runs` is how many runs there are.
#[tactic(auto, unfolding(crate::specs::PadForms::runs_form))]
fn write_runs(alloc: Global, pads: &[u8], runs: usize) -> Result<Bytes, NoMemory>
    requires few { length pads.now < 2 ^ 32 }
    requires runs { runs ≡ length (runs_of pads.now) }
    requires short { runs ≤ length pads.now }
    ensures { IfOk result (λ form. form ≡ runs_form (runs_of pads.now)) }
{
    let mut form = begun(alloc, RUNS, runs, 5 * runs)?;
    let mut rest = pads;
    while !rest.is_empty() {
        let len = first_run(rest);
        form.extend_from_slice(&(len as u32).to_be_bytes())?;
        form.push(rest[0])?;
        rest = &rest[len..];
    }
    Ok(Bytes::from_vec(form))
}

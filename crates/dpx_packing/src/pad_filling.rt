// How a frame's pads are read out of the side data.

ghost use Rattle.std.specs.Prelude.{◌≡◌, ◌+◌, ◌*◌, ◌≤◌, drop, length, slice_index, Some, None, OnOk, OnErr};
ghost use Rattle.byteorder.specs.Endian.{big_number};
ghost use Rattle.dpx_packing.specs.PadForms.{filled_by, pads_read, runs_at, runs_read, values_read};

use crate::pad_form::{RUNS, VALUES, ZEROS};
use byteorder::{BigEndian, ByteOrder};
use thiserror::Error;

/// The bytes are no form of that many pads.
#[derive(Clone, Copy, Debug, PartialEq, Eq, Error)]
#[error("bad pads")]
pub struct PadBad;

/// Fills in the pads that the form spells. `PadBad` comes exactly where the bytes are no form of
/// `out.len()` pads: another kind, a cut, bytes behind it, a run of length zero, or numbers that don't
/// add up. What stands in `out` after it isn't said. It takes no memory.
#[tactic(auto, unfolding(crate::specs::PadForms::pads_read))]
pub fn pad_fill(form: &[u8], out: &mut [u8]) -> Result<(), PadBad>
    ensures filled { OnOk result (pads_read form.now (length out.old) ≡ Some out.new) }
    ensures bad { OnErr result (pads_read form.now (length out.old) ≡ None) }
{
    match form {
        [ZEROS] => {
            out.fill(0);
            Ok(())
        }
        [RUNS, body @ ..] => fill_runs(body, out),
        [VALUES, body @ ..] => fill_values(body, out),
        _ => Err(PadBad),
    }
}

#[tactic(auto, unfolding(crate::specs::PadForms::values_read))]
fn fill_values(body: &[u8], out: &mut [u8]) -> Result<(), PadBad>
    ensures filled { OnOk result (values_read body.now (length out.old) ≡ Some out.new) }
    ensures bad { OnErr result (values_read body.now (length out.old) ≡ None) }
{
    if body.len() < 4 || BigEndian::read_u32(body) as usize != out.len() {
        return Err(PadBad);
    }
    let values = &body[4..];
    if values.len() != out.len() {
        return Err(PadBad);
    }
    out.copy_from_slice(values);
    Ok(())
}

#[tactic(auto, unfolding(crate::specs::PadForms::runs_read))]
fn fill_runs(body: &[u8], out: &mut [u8]) -> Result<(), PadBad>
    ensures filled { OnOk result (runs_read body.now (length out.old) ≡ Some out.new) }
    ensures bad { OnErr result (runs_read body.now (length out.old) ≡ None) }
{
    if body.len() < 4 {
        return Err(PadBad);
    }
    let count = BigEndian::read_u32(body) as usize;
    let runs = &body[4..];
    if runs.len() != 5 * count {
        return Err(PadBad);
    }
    fill_each(runs, count, out)
}

/// The bytes of a run: how many times, and the value.
pub(crate) fn run_at(runs: &[u8], i: usize) -> (usize, u8)
    requires { 5 * i + 5 ≤ length runs.now }
    ensures times { result.0 ≡ big_number 4 (drop (5 * i) runs.now) }
    ensures value { result.1 ≡ slice_index (drop (5 * i) runs.now) 4 }
{
    let run = &runs[5 * i..];
    (BigEndian::read_u32(run) as usize, run[4])
}

#[tactic(auto, using(crate::proofs::PadFilling::fillings))]
fn fill_each(runs: &[u8], count: usize, out: &mut [u8]) -> Result<(), PadBad>
    requires { length runs.now ≡ 5 * count }
    ensures filled { OnOk result (filled_by (runs_at count runs.now) (length out.old) ≡ Some out.new) }
    ensures bad { OnErr result (filled_by (runs_at count runs.now) (length out.old) ≡ None) }
{
    let mut at = 0;
    for i in 0..count {
        let (times, value) = run_at(runs, i);
        if times == 0 || times > out.len() - at {
            return Err(PadBad);
        }
        out[at..at + times].fill(value);
        at += times;
    }
    if at == out.len() { Ok(()) } else { Err(PadBad) }
}

// Where the form of a frame's pads ends, in bytes that begin with one.

ghost use Rattle.std.specs.Prelude.{◌≡◌, ◌+◌, ◌*◌, ◌≤◌, length, IfSome};
ghost use Rattle.std.specs.List.{list_all};
ghost use Rattle.dpx_packing.specs.PadForms.{is_run, pad_form_len, runs_at, runs_len, values_len};

use crate::pad_filling::run_at;
use crate::pad_form::{RUNS, VALUES, ZEROS};
use byteorder::{BigEndian, ByteOrder};

/// The length of the form of pads that the bytes begin with. `None` comes exactly where they begin with
/// no whole form: another kind, a cut, or a run of length zero. It takes no memory.
#[tactic(auto, unfolding(crate::specs::PadForms::pad_form_len))]
pub fn pad_form_len(bytes: &[u8]) -> Option<usize>
    ensures exact { result ≡ pad_form_len bytes.now }
    ensures within { IfSome result (λ len. len ≤ length bytes.now) }
{
    match bytes {
        [ZEROS, ..] => Some(1),
        [RUNS, body @ ..] => runs_len(body),
        [VALUES, body @ ..] => values_len(body),
        _ => None,
    }
}

#[tactic(auto, unfolding(crate::specs::PadForms::values_len))]
fn values_len(body: &[u8]) -> Option<usize>
    ensures exact { result ≡ values_len body.now }
    ensures within { IfSome result (λ len. len ≤ length body.now + 1) }
{
    if body.len() < 4 {
        return None;
    }
    let count = BigEndian::read_u32(body) as usize;
    if body.len() - 4 < count {
        return None;
    }
    Some(5 + count)
}

#[tactic(auto, unfolding(crate::specs::PadForms::runs_len))]
fn runs_len(body: &[u8]) -> Option<usize>
    ensures exact { result ≡ runs_len body.now }
    ensures within { IfSome result (λ len. len ≤ length body.now + 1) }
{
    if body.len() < 4 {
        return None;
    }
    let count = BigEndian::read_u32(body) as usize;
    let runs = &body[4..];
    if runs.len() < 5 * count || !are_runs(runs, count) {
        return None;
    }
    Some(5 + 5 * count)
}

// Whether none of so many runs has the length zero.
fn are_runs(runs: &[u8], count: usize) -> bool
    requires { 5 * count ≤ length runs.now }
    ensures { result ≡ list_all is_run (runs_at count runs.now) }
{
    for i in 0..count {
        if run_at(runs, i).0 == 0 {
            return false;
        }
    }
    true
}

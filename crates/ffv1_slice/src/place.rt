// A line of samples raised to differences.

ghost use Rattle.std.specs.Prelude.{◌≡◌, ℕ, ◌+◌, ◌*◌, ◌<◌, ◌≤◌, length, IsTrue};
ghost use Rattle.ffv1_params.specs.QuantTables.{AreFlat};
ghost use Rattle.ffv1_slice.specs.Below.{AreBelow, IsBelow, IsHalf};
ghost use Rattle.ffv1_slice.specs.Work.{AreSlots, around_lines, placed_sample, ArePlacedSamples};
ghost use Rattle.std.specs.Prelude.{slice_index};

use crate::around::Around;
use crate::terms::{around_in, context_of, difference_of, predicted};
use range_coder::Placed;

/// The differences of the samples of a line, each with the states of its context.
pub(crate) fn place_line(
    half: u32,
    values: &[i16],
    flat: bool,
    first: u32,
    above2: &[u32],
    above: &[u32],
    line: &[u32],
    symbols: &mut [Placed],
)
    requires half { IsHalf half }
    requires flat { IsTrue flat → AreFlat values.now }
    requires slots { AreSlots values.now first 2097185 }
    requires above2_len { length symbols.old + 3 ≤ length above2.now }
    requires above_len { length symbols.old + 3 ≤ length above.now }
    requires line_len { length symbols.old + 3 ≤ length line.now }
    requires above2 { AreBelow (2 * half) above2.now }
    requires above { AreBelow (2 * half) above.now }
    requires line { AreBelow (2 * half) line.now }
    ensures { ArePlacedSamples half values.now first above2.now above.now line.now symbols.new (length symbols.old) }
{
    for x in 0..symbols.len() {
        let around = around_in(above2, above, line, x);
        symbols[x] = placed(half, values, flat, first, around, line[x + 2]);
    }
}

// The difference of a sample, with the states of its context.
#[inline(always)]
fn placed(half: u32, values: &[i16], flat: bool, first: u32, around: Around, sample: u32) -> Placed
    requires half { IsHalf half }
    requires flat { IsTrue flat → AreFlat values.now }
    requires slots { AreSlots values.now first 2097185 }
    requires around { IsBelow (2 * half) around }
    requires sample { sample < 2 * half }
    ensures { result ≡ placed_sample half values.now first around sample }
{
    let context = context_of(values, flat, around);
    let prediction = predicted(around);
    Placed {
        first: first + 32 * context.unsigned_abs(),
        value: difference_of(half, context < 0, prediction, sample),
    }
}

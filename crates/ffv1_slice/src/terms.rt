// What the samples around a sample tell of it: a prediction, and the context of its difference.

ghost use Rattle.std.specs.Prelude.{◌≡◌, ℕ, ◌+◌, ◌-◌, ◌*◌, ◌%◌, ◌^◌, ◌<◌, ◌≤◌, length, max, pos, unsigned_abs, slice_index, ◌+ℤ◌, IsTrue};
ghost use Rattle.std.specs.Int.{is_negative, int_rem_euclid};
ghost use Rattle.ffv1_params.specs.QuantTables.{AreFlat};
ghost use Rattle.ffv1_slice.specs.Below.{IsBelow, IsHalf};
ghost use Rattle.ffv1_slice.specs.Plane.{around, prediction, context, step, value_at, folded, difference, restored};

use crate::around::Around;

/// Around place x of a line, whose places are counted from two left of it.
#[inline(always)]
pub(crate) fn around_in(above2: &[u32], above: &[u32], line: &[u32], x: usize) -> Around
    requires above2 { x + 3 ≤ length above2.now }
    requires above { x + 4 ≤ length above.now }
    requires line { x + 2 ≤ length line.now }
    ensures { result ≡ around (slice_index above2.now) (slice_index above.now) (slice_index line.now) x }
{
    Around {
        left: line[x + 1],
        above: above[x + 2],
        above_left: above[x + 1],
        above_right: above[x + 3],
        left_left: line[x],
        above_above: above2[x + 2],
    }
}

/// The median of the sample left, the one above, and left + above - above left.
#[inline(always)]
#[tactic(auto, unfolding(crate::specs::Plane::prediction))]
pub(crate) fn predicted(around: Around) -> u32
    requires { IsBelow 262144 around }
    ensures prediction { result ≡ prediction around }
    ensures within { result ≤ max around.left around.above }
{
    let gradient = (around.left + around.above).saturating_sub(around.above_left);
    let low = around.left.min(around.above);
    let high = around.left.max(around.above);
    low.max(high.min(gradient))
}

// A difference modulo 256.
#[inline(always)]
fn step_of(p: u32, q: u32) -> usize
    requires from { p < 262144 }
    requires to { q < 262144 }
    ensures step { result ≡ step p q }
    ensures small { result < 256 }
{
    ((p + 262144 - q) % 256) as usize
}

// The value of a difference in one of five tables.
#[inline(always)]
fn value_of(values: &[i16], table: usize, p: u32, q: u32) -> i32
    requires long { length values.now ≡ 1280 }
    requires table { table < 5 }
    requires from { p < 262144 }
    requires to { q < 262144 }
    ensures value { result ≡ value_at values.now table (step p q) }
    ensures small { unsigned_abs result ≤ 32768 }
{
    i32::from(values[256 * table + step_of(p, q)])
}

// A sum of few values of tables.
#[inline(always)]
fn added(a: i32, b: i32) -> i32
    requires a { unsigned_abs a ≤ 131072 }
    requires b { unsigned_abs b ≤ 32768 }
    ensures sum { result ≡ a +ℤ b }
    ensures small { unsigned_abs result ≤ unsigned_abs a + 32768 }
{
    a + b
}

/// The context, with its sign. Where the last two tables are flat, three terms do.
#[inline(always)]
#[tactic(auto, using(crate::proofs::Flat::flat), unfolding(crate::specs::Plane::context))]
pub(crate) fn context_of(values: &[i16], flat: bool, around: Around) -> i32
    requires long { length values.now ≡ 1280 }
    requires flat { IsTrue flat → AreFlat values.now }
    requires below { IsBelow 262144 around }
    ensures context { result ≡ context values.now around }
    ensures small { unsigned_abs result ≤ 163840 }
{
    let sum = value_of(values, 0, around.left, around.above_left);
    let sum = added(sum, value_of(values, 1, around.above_left, around.above));
    let sum = added(sum, value_of(values, 2, around.above, around.above_right));
    if flat {
        return sum;
    }
    let sum = added(sum, value_of(values, 3, around.left_left, around.left));
    added(sum, value_of(values, 4, around.above_above, around.above))
}

// What is left of a sum, divided by 2 * half, which is a power of two.
#[inline(always)]
#[tactic(auto, using(crate::proofs::Residues::residues))]
fn wrapped(half: u32, sum: u32) -> u32
    requires half { IsHalf half }
    ensures value { result ≡ sum % (2 * half) }
    ensures below { result < 2 * half }
{
    sum & (2 * half - 1)
}

// A difference modulo 2 * half, folded into -half to half - 1.
#[inline(always)]
fn folded_of(half: u32, apart: u32) -> i32
    requires half { IsHalf half }
    requires apart { apart < 4 * half }
    ensures value { result ≡ folded half apart }
    ensures small { unsigned_abs result ≤ 65536 }
{
    wrapped(half, apart + half) as i32 - half as i32
}

/// The difference with which a sample is coded.
#[inline(always)]
#[tactic(auto, unfolding(crate::specs::Plane::difference))]
pub(crate) fn difference_of(half: u32, negative: bool, prediction: u32, sample: u32) -> i32
    requires half { IsHalf half }
    requires prediction { prediction < 2 * half }
    requires sample { sample < 2 * half }
    ensures value { result ≡ difference half negative prediction sample }
    ensures small { unsigned_abs result ≤ 65536 }
{
    if negative {
        folded_of(half, prediction + 2 * half - sample)
    } else {
        folded_of(half, sample + 2 * half - prediction)
    }
}

// What is left of a value, divided by 2 * half.
#[inline(always)]
#[tactic(auto, using(crate::proofs::Residues::residues))]
fn residue_of(half: u32, value: i32) -> u32
    requires half { IsHalf half }
    requires value { unsigned_abs value < 2147483648 }
    ensures value { result ≡ unsigned_abs (int_rem_euclid value (pos (2 * half))) }
    ensures below { result < 2 * half }
{
    wrapped(half, value.cast_unsigned())
}

/// The sample with which a difference is read.
#[inline(always)]
#[tactic(auto, unfolding(crate::specs::Plane::restored))]
pub(crate) fn restored_of(half: u32, negative: bool, prediction: u32, value: i32) -> u32
    requires half { IsHalf half }
    requires prediction { prediction < 2 * half }
    requires value { unsigned_abs value < 2147483648 }
    ensures value { result ≡ restored half negative prediction value }
    ensures below { result < 2 * half }
{
    if negative {
        wrapped(half, prediction + residue_of(half, -value))
    } else {
        wrapped(half, prediction + residue_of(half, value))
    }
}

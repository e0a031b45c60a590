// Linear prediction (RFC 9639, section 9.2.6).

ghost use Rattle.std.specs.Prelude.{◌≡◌, ◌+◌, ◌^◌, ◌≤◌, ◌<◌, ◌+ℤ◌, ◌-ℤ◌, ◌*ℤ◌, IsTrue, length, take, drop, MatchOption, IfSome};
ghost use Rattle.std.specs.List.{sum_by};
ghost use Rattle.flac_predict.specs.Rice.{quotient};
ghost use Rattle.flac_predict.specs.Samples.{all_inside, AreInside, IsInside};
ghost use Rattle.flac_predict.specs.Linear.{IsLinearSet, weighted, predicted, linear_residuals, linear_restored};
ghost use Rattle.flac_predict.specs.Bank.{IsOfBank, bank_set};

use crate::inside::is_inside;
use crate::rice::shifted_sum;
use crate::{LinearSet, bank};

/// Writes the residuals of samples from -2^24 to 2^24 - 1 under a set of the bank: one for each sample behind the first
/// `set.order`, the warm-up. It takes no memory.
pub fn residual_linear(set: &LinearSet, samples: &[i32], out: &mut [i32])
    requires set { IsOfBank set.now }
    requires samples { AreInside 25 samples.now }
    requires room { length out.old + set.now.order ≡ length samples.now }
    ensures residuals { out.new ≡ linear_residuals set.now samples.now }
    ensures inside { AreInside 29 out.new }
{
    residuals_of(set, samples, out);
}

// The same for the set of a number. Each set stands in a loop of its own, in which its coefficients are constants.
#[inline(never)]
pub(crate) fn residual_bank(number: u32, samples: &[i32], out: &mut [i32])
    requires low { 1 ≤ number }
    requires high { number ≤ 8 }
    requires samples { AreInside 25 samples.now }
    requires room { length out.old + (bank_set number).order ≡ length samples.now }
    ensures residuals { out.new ≡ linear_residuals (bank_set number) samples.now }
    ensures inside { AreInside 29 out.new }
{
    match number {
        1 => residuals_of(&bank(1), samples, out),
        2 => residuals_of(&bank(2), samples, out),
        3 => residuals_of(&bank(3), samples, out),
        4 => residuals_of(&bank(4), samples, out),
        5 => residuals_of(&bank(5), samples, out),
        6 => residuals_of(&bank(6), samples, out),
        7 => residuals_of(&bank(7), samples, out),
        _ => residuals_of(&bank(8), samples, out),
    }
}

// The sum of a set's residuals as numbers that aren't negative, written part after part; none where it is at least `most`.
pub(crate) fn sum_of_set(
    number: u32,
    order: usize,
    samples: &[i32],
    out: &mut [i32],
    most: u64,
) -> Option<u64>
    requires low { 1 ≤ number }
    requires number { number ≤ 8 }
    requires order { order ≡ (bank_set number).order }
    requires count { length samples.now ≤ 4096 }
    requires samples { AreInside 25 samples.now }
    requires room { length out.old + order ≡ length samples.now }
    ensures sum { MatchOption result (most ≤ sum_by (quotient 0) (linear_residuals (bank_set number) samples.now))
        (λ sum. sum ≡ sum_by (quotient 0) out.new) }
    ensures residuals { IfSome result (λ _. out.new ≡ linear_residuals (bank_set number) samples.now) }
    ensures small { IfSome result (λ sum. sum ≤ 2 ^ 44) }
{
    let count = out.len();
    let mut sum = 0;
    let mut done = 0;
    while done < count {
        let end = count.min(done + 256);
        let part = &mut out[done..end];
        residual_bank(number, &samples[done..end + order], part);
        sum += shifted_sum(part, 0);
        if sum >= most {
            return None;
        }
        done = end;
    }
    Some(sum)
}

#[inline(always)]
fn residuals_of(set: &LinearSet, samples: &[i32], out: &mut [i32])
    requires set { IsOfBank set.now }
    requires samples { AreInside 25 samples.now }
    requires room { length out.old + set.now.order ≡ length samples.now }
    ensures residuals { out.new ≡ linear_residuals set.now samples.now }
    ensures inside { AreInside 29 out.new }
{
    let order = set.order as usize;
    for place in 0..out.len() {
        let prediction = prediction(set, samples, order + place);
        out[place] = difference_of(samples[order + place], prediction);
    }
}

/// Restores the samples of a linear predictor, in place. `samples` holds the warm-up, which is inside `bits`, and then
/// the residuals; `bits` is 1 to 25. False exactly where a restored sample leaves its bits, and then `samples` is free.
/// It takes no memory.
pub fn restore_linear(set: &LinearSet, samples: &mut [i32], bits: u32) -> bool
    requires set { IsLinearSet set.now }
    requires low { 1 ≤ bits }
    requires high { bits ≤ 25 }
    requires enough { set.now.order ≤ length samples.old }
    requires warm_up { AreInside bits (take set.now.order samples.old) }
    ensures inside { result ≡ all_inside bits (linear_restored set.now (take set.now.order samples.old) (drop set.now.order samples.old)) }
    ensures restored { IsTrue result → samples.new ≡ linear_restored set.now (take set.now.order samples.old) (drop set.now.order samples.old) }
{
    for place in set.order as usize..samples.len() {
        let prediction = prediction(set, samples, place);
        let sample = sum_of(samples[place], prediction);
        if !is_inside(sample, bits) {
            return false;
        }
        samples[place] = sample as i32;
    }
    true
}

// The prediction of the sample at a place from those before it.
#[inline(always)]
fn prediction(set: &LinearSet, samples: &[i32], place: usize) -> i64
    requires set { IsLinearSet set.now }
    requires enough { set.now.order ≤ place }
    requires within { place ≤ length samples.now }
    requires samples { AreInside 25 (take place samples.now) }
    ensures prediction { result ≡ predicted set.now samples.now place }
    ensures inside { IsInside 45 result }
{
    let mut sum = 0i64;
    for count in 0..set.order as usize {
        sum = with_term(sum, set.coefficients[count], samples[place - 1 - count]);
    }
    sum >> set.shift
}

// A sum with one more product.
#[inline(always)]
fn with_term(sum: i64, coefficient: i32, sample: i32) -> i64
    requires { IsInside 60 sum }
    ensures { result ≡ sum +ℤ (coefficient *ℤ sample) }
{
    sum + coefficient as i64 * sample as i64
}

// A sample less its prediction.
#[inline(always)]
fn difference_of(sample: i32, prediction: i64) -> i32
    requires prediction { IsInside 45 prediction }
    requires small { IsInside 29 (sample -ℤ prediction) }
    ensures { result ≡ sample -ℤ prediction }
{
    (sample as i64 - prediction) as i32
}

// A residual and its prediction.
#[inline(always)]
fn sum_of(residual: i32, prediction: i64) -> i64
    requires { IsInside 45 prediction }
    ensures { result ≡ residual +ℤ prediction }
{
    residual as i64 + prediction
}

// The fixed predictors (RFC 9639, section 9.2.5).

ghost use Rattle.std.specs.Prelude.{◌≡◌, ◌+◌, ◌≤◌, IsTrue, length, take, drop};
ghost use Rattle.flac_predict.specs.Samples.{all_inside, AreInside};
ghost use Rattle.flac_predict.specs.Fixed.{fixed_residuals, fixed_restored};

use crate::differences::{FourTimes, Once, Thrice, Twice, differences_into};
use crate::sums::{FourSums, NoSum, OneSum, ThreeSums, TwoSums, restored};

/// Writes the residuals of samples from -2^24 to 2^24 - 1 under the fixed predictor of an order of at most 4: one for
/// each sample behind the first `order`, the warm-up. It takes no memory.
pub fn residual_fixed(order: u32, samples: &[i32], out: &mut [i32])
    requires order { order ≤ 4 }
    requires samples { AreInside 25 samples.now }
    requires room { length out.old + order ≡ length samples.now }
    ensures residuals { out.new ≡ fixed_residuals order samples.now }
    ensures inside { AreInside 29 out.new }
{
    match order {
        0 => out.copy_from_slice(samples),
        1 => differences_into::<Once>(samples, out),
        2 => differences_into::<Twice>(samples, out),
        3 => differences_into::<Thrice>(samples, out),
        _ => differences_into::<FourTimes>(samples, out),
    }
}

/// Restores the samples of a fixed predictor of an order of at most 4, in place. `samples` holds the warm-up, which is
/// inside `bits`, and then the residuals; `bits` is 1 to 25. False exactly where a restored sample leaves its bits, and
/// then `samples` is free. It takes no memory.
pub fn restore_fixed(order: u32, samples: &mut [i32], bits: u32) -> bool
    requires order { order ≤ 4 }
    requires low { 1 ≤ bits }
    requires high { bits ≤ 25 }
    requires enough { order ≤ length samples.old }
    requires warm_up { AreInside bits (take order samples.old) }
    ensures inside { result ≡ all_inside bits (fixed_restored order (take order samples.old) (drop order samples.old)) }
    ensures restored { IsTrue result → samples.new ≡ fixed_restored order (take order samples.old) (drop order samples.old) }
{
    match order {
        0 => restored::<NoSum>(0, samples, bits),
        1 => restored::<OneSum>(1, samples, bits),
        2 => restored::<TwoSums>(2, samples, bits),
        3 => restored::<ThreeSums>(3, samples, bits),
        _ => restored::<FourSums>(4, samples, bits),
    }
}

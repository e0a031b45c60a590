// Sums of residuals, taken once or more: the samples that follow the last ones.

ghost use Rattle.std.specs.Prelude.{◌≡◌, ◌≤◌, ℕ, ℤ, List, [], ◌∷◌, IsTrue, length, take, drop};
ghost use Rattle.flac_predict.specs.Samples.{all_inside, IsInside, AreInside};
ghost use Rattle.flac_predict.specs.Fixed.{following, lasts, fixed_restored};

use crate::differences::{Difference, Once, Thrice, Twice};
use crate::inside::is_inside;

// The last sample and its differences, as many as an order says, which tell the samples that follow.
pub(crate) trait Sums: Drop {
    ghost order: { ℕ };

    ghost last: { Self → List ℤ };

    ghost fits: { Self → Type 0 };

    fn of(warm_up: &[i32]) -> Self
        requires count { length warm_up.now ≡ order }
        requires inside { AreInside 25 warm_up.now }
        ensures last { last result ≡ lasts order warm_up.now }
        ensures fits { fits result };

    fn next(&mut self, residual: i32) -> i64
        requires { fits self.old }
        ensures following { (more : List ℤ) → following (last self.old) (residual ∷ more) ≡ result ∷ following (last self.new) more }
        ensures fits { IsInside 25 result → fits self.new };
}

#[derive(Drop)]
pub(crate) struct NoSum;

#[derive(Drop)]
pub(crate) struct OneSum {
    sample: i64,
}

#[derive(Drop)]
pub(crate) struct TwoSums {
    sample: i64,
    first: i64,
}

#[derive(Drop)]
pub(crate) struct ThreeSums {
    sample: i64,
    first: i64,
    second: i64,
}

#[derive(Drop)]
pub(crate) struct FourSums {
    sample: i64,
    first: i64,
    second: i64,
    third: i64,
}

impl Sums for NoSum {
    ghost order = { 0 };

    ghost last = { λ s. [] };

    ghost fits = { λ s. Unit {0} };

    fn of(_warm_up: &[i32]) -> NoSum {
        NoSum
    }

    #[inline(always)]
    fn next(&mut self, residual: i32) -> i64 {
        residual as i64
    }
}

impl Sums for OneSum {
    ghost order = { 1 };

    ghost last = { λ s. s.sample ∷ [] };

    ghost fits = { λ s. IsInside 25 s.sample };

    fn of(warm_up: &[i32]) -> OneSum {
        OneSum {
            sample: warm_up[0] as i64,
        }
    }

    #[inline(always)]
    fn next(&mut self, residual: i32) -> i64 {
        self.sample += residual as i64;
        self.sample
    }
}

impl Sums for TwoSums {
    ghost order = { 2 };

    ghost last = { λ s. s.sample ∷ s.first ∷ [] };

    ghost fits = { λ s. IsInside 25 s.sample × IsInside 26 s.first };

    fn of(warm_up: &[i32]) -> TwoSums {
        let sample = warm_up[1] as i64;
        let first = sample - warm_up[0] as i64;
        TwoSums { sample, first }
    }

    #[inline(always)]
    fn next(&mut self, residual: i32) -> i64 {
        self.first += residual as i64;
        self.sample += self.first;
        self.sample
    }
}

impl Sums for ThreeSums {
    ghost order = { 3 };

    ghost last = { λ s. s.sample ∷ s.first ∷ s.second ∷ [] };

    ghost fits = { λ s. IsInside 25 s.sample × IsInside 26 s.first × IsInside 27 s.second };

    fn of(warm_up: &[i32]) -> ThreeSums {
        let before = warm_up[1] as i64;
        let sample = warm_up[2] as i64;
        let first = sample - before;
        let second = first - (before - warm_up[0] as i64);
        ThreeSums {
            sample,
            first,
            second,
        }
    }

    #[inline(always)]
    fn next(&mut self, residual: i32) -> i64 {
        self.second += residual as i64;
        self.first += self.second;
        self.sample += self.first;
        self.sample
    }
}

impl Sums for FourSums {
    ghost order = { 4 };

    ghost last = { λ s. s.sample ∷ s.first ∷ s.second ∷ s.third ∷ [] };

    ghost fits = { λ s. IsInside 25 s.sample × IsInside 26 s.first × IsInside 27 s.second × IsInside 28 s.third };

    fn of(warm_up: &[i32]) -> FourSums {
        let first = Once::at(warm_up, 2);
        let second = Twice::at(warm_up, 1);
        let third = Thrice::at(warm_up, 0);
        FourSums {
            sample: warm_up[3] as i64,
            first: first as i64,
            second: second as i64,
            third: third as i64,
        }
    }

    #[inline(always)]
    fn next(&mut self, residual: i32) -> i64 {
        self.third += residual as i64;
        self.second += self.third;
        self.first += self.second;
        self.sample += self.first;
        self.sample
    }
}

// Writes the samples that follow in place of their residuals. False exactly where one of them leaves its bits.
#[inline(always)]
fn sums_into<S: Sums>(sums: S, rest: &mut [i32], bits: u32) -> bool
    requires fits { S.fits sums }
    requires low { 1 ≤ bits }
    requires high { bits ≤ 25 }
    ensures inside { result ≡ all_inside bits (following (S.last sums) rest.old) }
    ensures following { IsTrue result → rest.new ≡ following (S.last sums) rest.old }
{
    let mut sums = sums;
    for place in 0..rest.len() {
        let sample = sums.next(rest[place]);
        if !is_inside(sample, bits) {
            return false;
        }
        rest[place] = sample as i32;
    }
    true
}

// The same for a warm-up and the residuals behind it.
pub(crate) fn restored<S: Sums>(order: usize, samples: &mut [i32], bits: u32) -> bool
    requires order { S.order ≡ order }
    requires low { 1 ≤ bits }
    requires high { bits ≤ 25 }
    requires enough { order ≤ length samples.old }
    requires warm_up { AreInside bits (take order samples.old) }
    ensures inside { result ≡ all_inside bits (fixed_restored order (take order samples.old) (drop order samples.old)) }
    ensures restored { IsTrue result → samples.new ≡ fixed_restored order (take order samples.old) (drop order samples.old) }
{
    let (warm_up, rest) = samples.split_at_mut(order);
    sums_into(S::of(warm_up), rest, bits)
}

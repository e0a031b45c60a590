// Differences of samples, taken once or more: a number at a place.

ghost use Rattle.std.specs.Prelude.{◌≡◌, ℕ, ◌+◌, ◌<◌, ◌≤◌, length};
ghost use Rattle.flac_predict.specs.Samples.{sample_at, AreInside, IsInside};
ghost use Rattle.flac_predict.specs.Fixed.{fixed_residuals};

/// The residuals of a fixed predictor, by places.
pub(crate) trait Difference {
    ghost order: { ℕ };

    fn at(samples: &[i32], place: usize) -> i32
        requires samples { AreInside 25 samples.now }
        requires within { place + order < length samples.now }
        ensures residual { result ≡ sample_at (fixed_residuals order samples.now) place }
        ensures inside { IsInside (25 + order) result };
}

pub(crate) struct Once;

pub(crate) struct Twice;

pub(crate) struct Thrice;

pub(crate) struct FourTimes;

impl Difference for Once {
    ghost order = { 1 };

    #[inline(always)]
    fn at(samples: &[i32], place: usize) -> i32 {
        samples[place + 1] - samples[place]
    }
}

impl Difference for Twice {
    ghost order = { 2 };

    #[inline(always)]
    fn at(samples: &[i32], place: usize) -> i32 {
        Once::at(samples, place + 1) - Once::at(samples, place)
    }
}

impl Difference for Thrice {
    ghost order = { 3 };

    #[inline(always)]
    fn at(samples: &[i32], place: usize) -> i32 {
        Twice::at(samples, place + 1) - Twice::at(samples, place)
    }
}

impl Difference for FourTimes {
    ghost order = { 4 };

    #[inline(always)]
    fn at(samples: &[i32], place: usize) -> i32 {
        Thrice::at(samples, place + 1) - Thrice::at(samples, place)
    }
}

// Writes the difference at each place.
#[inline(never)]
pub(crate) fn differences_into<D: Difference>(samples: &[i32], out: &mut [i32])
    requires samples { AreInside 25 samples.now }
    requires room { length out.old + D.order ≡ length samples.now }
    ensures { out.new ≡ fixed_residuals D.order samples.now }
{
    for place in 0..out.len() {
        out[place] = D::at(samples, place);
    }
}

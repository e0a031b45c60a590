// Samples inside their bits.

ghost use Rattle.std.specs.Prelude.{◌≡◌, ◌-◌, ◌^◌, ◌≤◌, pos};
ghost use Rattle.flac_predict.specs.Samples.{is_inside};

// The least power of two that a sample of so many bits is below.
#[inline(always)]
fn limit_of(bits: u32) -> i64
    requires low { 1 ≤ bits }
    requires high { bits ≤ 25 }
    ensures { result ≡ pos (2 ^ (bits - 1)) }
{
    i64::from(1u32 << (bits - 1))
}

// Whether a sample is inside so many bits.
#[inline(always)]
pub(crate) fn is_inside(sample: i64, bits: u32) -> bool
    requires low { 1 ≤ bits }
    requires high { bits ≤ 25 }
    ensures { result ≡ is_inside bits sample }
{
    let limit = limit_of(bits);
    if sample < 0 {
        -limit <= sample
    } else {
        sample < limit
    }
}

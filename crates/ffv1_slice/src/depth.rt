// What the bits of a sample tell.

ghost use Rattle.std.specs.Prelude.{◌≡◌, ◌^◌};
ghost use Rattle.ffv1_slice.specs.Below.{IsHalf};
ghost use Rattle.ffv1_slice.specs.Colour.{from_green};

use ffv1_params::Params;

/// Two to the bits of a sample.
#[tactic(auto, using(crate::proofs::Depths::depths))]
pub(crate) fn half_of(params: &Params) -> u32
    ensures power { result ≡ 2 ^ params.now.bits }
    ensures half { IsHalf result }
{
    match params.bits() {
        8 => 256,
        10 => 1024,
        12 => 4096,
        _ => 65536,
    }
}

/// Whether differences of colours are from green: at 8 and 16 bits.
pub(crate) fn is_from_green(params: &Params) -> bool
    ensures { result ≡ from_green params.now.bits }
{
    let bits = params.bits();
    bits == 8 || bits == 16
}

// The colours of pixels as luma and two differences, and back.

ghost use Rattle.std.specs.Prelude.{◌≡◌, ℕ, ◌+◌, ◌-◌, ◌*◌, ◌/◌, ◌<◌, ◌≤◌, length, Bool};
ghost use Rattle.ffv1_slice.specs.Below.{AreBelow, IsHalf};
ghost use Rattle.ffv1_slice.specs.Colour.{Pixel, plane_sample};
ghost use Rattle.ffv1_slice.specs.Loading.{AreSamples};

/// Luma and the two differences of a pixel, in the planes' order.
#[inline(always)]
#[tactic(auto, unfolding(crate::specs::Colour::plane_sample))]
pub(crate) fn to_luma(
    half: u32,
    green_based: bool,
    red: u32,
    green: u32,
    blue: u32,
) -> (u32, u32, u32)
    requires half { IsHalf half }
    requires red { red < half }
    requires green { green < half }
    requires blue { blue < half }
    ensures luma { result.0 ≡ plane_sample half green_based (record { red = red; green = green; blue = blue }) 0 }
    ensures blue { result.1 ≡ plane_sample half green_based (record { red = red; green = green; blue = blue }) 1 }
    ensures red { result.2 ≡ plane_sample half green_based (record { red = red; green = green; blue = blue }) 2 }
    ensures luma_below { result.0 < 2 * half }
    ensures blue_below { result.1 < 2 * half }
    ensures red_below { result.2 < 2 * half }
{
    let (base, other) = if green_based {
        (green, blue)
    } else {
        (blue, green)
    };
    let blue_difference = other + half - base;
    let red_difference = red + half - base;
    (
        base + (blue_difference + red_difference) / 4 - half / 2,
        blue_difference,
        red_difference,
    )
}

/// The samples of a line of pixels, in the last lines of the three planes.
#[tactic(auto, using(crate::proofs::Loading::loading))]
pub(crate) fn load_row(
    half: u32,
    green_based: bool,
    pixels: &[u16],
    luma: &mut [u32],
    blue: &mut [u32],
    red: &mut [u32],
    width: usize,
)
    requires half { IsHalf half }
    requires pixels { 3 * width ≤ length pixels.now }
    requires colours { AreBelow half pixels.now }
    requires luma_len { width + 3 ≤ length luma.old }
    requires blue_len { width + 3 ≤ length blue.old }
    requires red_len { width + 3 ≤ length red.old }
    ensures luma { AreSamples half green_based pixels.now 0 width luma.old luma.new }
    ensures blue { AreSamples half green_based pixels.now 1 width blue.old blue.new }
    ensures red { AreSamples half green_based pixels.now 2 width red.old red.new }
{
    for x in 0..width {
        let (y, cb, cr) = to_luma(
            half,
            green_based,
            u32::from(pixels[3 * x]),
            u32::from(pixels[3 * x + 1]),
            u32::from(pixels[3 * x + 2]),
        );
        luma[x + 2] = y;
        blue[x + 2] = cb;
        red[x + 2] = cr;
    }
}

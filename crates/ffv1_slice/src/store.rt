// Lines of samples, stored as the colours of pixels.

ghost use Rattle.std.specs.Prelude.{◌≡◌, ◌+◌, ◌*◌, ◌<◌, ◌≤◌, ◌↔◌, length, false, IsTrue, MatchOption};
ghost use Rattle.ffv1_slice.specs.Below.{AreBelow, IsHalf};
ghost use Rattle.ffv1_slice.specs.Colour.{IsColour, AreRaised, AreColours};
ghost use Rattle.ffv1_slice.specs.Storing.{HasSamples, RowStored, RowLeaves};

// Whether a colour to which 2 * half was added is below half, and not below 0.
#[inline(always)]
fn is_colour(half: u32, raised: u32) -> bool
    requires { IsHalf half }
    ensures { IsTrue result ↔ IsColour half raised }
{
    (raised >= 2 * half) & (raised < 3 * half)
}

// Whether three such colours are.
#[inline(always)]
fn are_colours(half: u32, base: u32, other: u32, red: u32) -> bool
    requires { IsHalf half }
    ensures { IsTrue result ↔ AreRaised half base other red }
{
    is_colour(half, base) & is_colour(half, other) & is_colour(half, red)
}

/// The pixel of these samples: red, green and blue. There is none where a colour is out of its range.
#[inline(always)]
fn to_pixel(half: u32, green_based: bool, y: u32, cb: u32, cr: u32) -> Option<(u32, u32, u32)>
    requires half { IsHalf half }
    requires y { y < 2 * half }
    requires cb { cb < 2 * half }
    requires cr { cr < 2 * half }
    ensures { MatchOption result (AreColours half y cb cr → ⊥) (λ p. HasSamples half green_based y cb cr (record { red = p.0; green = p.1; blue = p.2 })) }
{
    let base = y + half / 2 + 2 * half - (cb + cr) / 4;
    let other = cb + base - half;
    let red = cr + base - half;
    if !are_colours(half, base, other, red) {
        return None;
    }
    let whole = 2 * half;
    if green_based {
        Some((red - whole, base - whole, other - whole))
    } else {
        Some((red - whole, other - whole, base - whole))
    }
}

/// Stores the pixels of the last lines of the three planes, from pixel `at` on. It is false where a colour is out of its
/// range. It takes no memory.
#[tactic(auto, using(crate::proofs::Stores::stores))]
pub(crate) fn store_row(
    half: u32,
    green_based: bool,
    luma: &[u32],
    blue: &[u32],
    red: &[u32],
    tile: &mut [u16],
    at: usize,
    width: usize,
) -> bool
    requires half { IsHalf half }
    requires tile { 3 * (at + width) ≤ length tile.old }
    requires luma_long { width + 3 ≤ length luma.now }
    requires blue_long { width + 3 ≤ length blue.now }
    requires red_long { width + 3 ≤ length red.now }
    requires luma { AreBelow (2 * half) luma.now }
    requires blue { AreBelow (2 * half) blue.now }
    requires red { AreBelow (2 * half) red.now }
    ensures stored { IsTrue result → RowStored half green_based luma.now blue.now red.now tile.old tile.new at width }
    ensures leaves { result ≡ false → RowLeaves half luma.now blue.now red.now width }
{
    for x in 0..width {
        let Some((r, g, b)) = to_pixel(half, green_based, luma[x + 2], blue[x + 2], red[x + 2])
        else {
            return false;
        };
        let place = 3 * (at + x);
        tile[place] = r as u16;
        tile[place + 1] = g as u16;
        tile[place + 2] = b as u16;
    }
    true
}

// A line of pixels of a tile.

ghost use Rattle.std.specs.Prelude.{◌≡◌, ℕ, ◌+◌, ◌*◌, ◌<◌, ◌≤◌, length};
ghost use Rattle.ffv1_slice.specs.Below.{AreBelow};
ghost use Rattle.ffv1_slice.specs.Colour.{pixel_in};

/// The three colours of each pixel of a line.
#[tactic(auto, using(crate::proofs::Pixels::pixels))]
pub(crate) fn row_of(tile: &[u16], width: usize, height: usize, y: usize, half: u32) -> &[u16]
    requires long { length tile.now ≡ 3 * (width * height) }
    requires some { 0 < half }
    requires y { y < height }
    requires colours { AreBelow half tile.now }
    ensures long { length result.now ≡ 3 * width }
    ensures pixels { (x : ℕ) → x < width → pixel_in result.now x ≡ pixel_in tile.now (y * width + x) }
    ensures colours { AreBelow half result.now }
{
    let start = 3 * (y * width);
    &tile[start..start + 3 * width]
}

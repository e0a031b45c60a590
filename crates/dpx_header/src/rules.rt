// The rules that a header has to keep, and the stride that follows from it.

ghost use Rattle.std.specs.Prelude.{◌≡◌, ◌≤◌, IsTrue};
ghost use Rattle.dpx_header.specs.Layout.{line_len, aligned, is_size, is_depth, is_packing, fits, stride_of};

use crate::header::Header;

/// The bytes of a line of so many pixels (SMPTE 268M, image data), without the bytes of the stride past it. It
/// takes no memory.
#[tactic(auto, unfolding(crate::specs::Layout::line_len))]
pub fn line_len(bits: u8, width: u32) -> u32
    requires { width ≤ 16384 }
    ensures exact { result ≡ line_len bits width }
    ensures high { result ≤ 98304 }
{
    match bits {
        8 => 3 * width,
        10 => 4 * width,
        _ => 6 * width,
    }
}

/// Rounded up to a multiple of 4.
pub fn aligned(len: u32) -> u32
    requires { len ≤ 98304 }
    ensures exact { result ≡ aligned len }
    ensures high { result ≤ 98304 }
{
    (len + 3) / 4 * 4
}

/// Whether the image has a size that is taken.
pub fn is_size(width: u32, height: u32) -> bool
    ensures exact { result ≡ is_size width height }
    ensures width { IsTrue result → width ≤ 16384 }
    ensures height { IsTrue result → height ≤ 16384 }
{
    1 <= width
        && width <= 16384
        && 1 <= height
        && height <= 16384
        && u64::from(width) * u64::from(height) <= 67108864
}

/// Whether samples of so many bits are taken.
pub fn is_depth(bits: u8) -> bool
    ensures { result ≡ is_depth bits }
{
    matches!(bits, 8 | 10 | 12 | 16)
}

/// Whether samples of so many bits may be packed so.
pub fn is_packing(bits: u8, packing: u16) -> bool
    ensures { result ≡ is_packing bits packing }
{
    packing == 1 || (bits == 8 || bits == 16) && packing == 0
}

/// Whether the file has room for the lines at this stride.
pub fn fits(stride: u32, header: &Header, file_len: u64) -> bool
    requires stride { stride ≤ 98304 }
    requires height { header.now.height ≤ 16384 }
    ensures { result ≡ fits stride header.now file_len }
{
    u64::from(header.offset) + u64::from(stride) * u64::from(header.height) <= file_len
}

/// Lines end at a boundary of 32 bits where the file has room for that, else one follows right after
/// the other.
pub fn stride_of(header: &Header, file_len: u64) -> u32
    requires width { header.now.width ≤ 16384 }
    requires height { header.now.height ≤ 16384 }
    ensures { result ≡ stride_of header.now file_len }
{
    let line = line_len(header.depth, header.width);
    let aligned = aligned(line);
    if fits(aligned, header, file_len) {
        aligned
    } else {
        line
    }
}

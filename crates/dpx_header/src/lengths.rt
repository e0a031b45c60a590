// The lengths that follow from a layout.

ghost use Rattle.std.specs.Prelude.{◌≡◌, ◌^◌, ◌≤◌, ◌<◌};
ghost use Rattle.dpx_header.specs.Layout.{IsWellFormed, image_size, pad_count, pads_in_line, sample_count};

use crate::Layout;
use crate::rules::line_len;

/// The length of the image in bytes: stride times height. It takes no memory.
pub fn image_len(layout: &Layout) -> u64
    ensures { result ≡ image_size layout.now }
{
    u64::from(layout.stride) * u64::from(layout.height)
}

/// How many groups of fill bits a line of so many pixels has (SMPTE 268M, filled by method A): one a pixel at 10
/// bits, one a sample at 12. It takes no memory.
#[tactic(auto, unfolding(crate::specs::Layout::pads_in_line))]
pub fn pads_in_line(bits: u8, width: u32) -> u32
    requires { width ≤ 16384 }
    ensures exact { result ≡ pads_in_line bits width }
    ensures high { result ≤ 49152 }
{
    match bits {
        10 => width,
        12 => 3 * width,
        _ => 0,
    }
}

/// The length of the pad list: line by line, one value for each group of fill bits, then one for each
/// byte of the stride past the line. It takes no memory.
pub fn pad_len(layout: &Layout) -> usize
    requires { IsWellFormed layout.now }
    ensures exact { result ≡ pad_count layout.now }
    ensures few { result < 2 ^ 28 }
{
    let line = line_len(layout.bits, layout.width);
    let in_line = pads_in_line(layout.bits, layout.width) + (layout.stride - line);
    layout.height as usize * in_line as usize
}

/// The length of the sample list: three samples a pixel. It takes no memory.
pub fn sample_len(layout: &Layout) -> usize
    requires { IsWellFormed layout.now }
    ensures exact { result ≡ sample_count layout.now }
    ensures few { result < 2 ^ 28 }
{
    3 * layout.width as usize * layout.height as usize
}

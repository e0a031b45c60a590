// Footers of slices, as the bytes before the end of a frame tell them.

ghost use Rattle.std.specs.Prelude.{◌≡◌, ◌+◌, ◌<◌, ◌≤◌, length, Some, None, OnOk, IfErr, IfOk};
ghost use Rattle.ffv1_frame.specs.Footers.{footer_len, size_told, last_fault, last_size, slice_place};

use crate::FrameWhy;
use cook_bits::crc32_high;

/// Where the coded bytes of a slice stand.
#[derive(Clone, Copy)]
pub(crate) struct Span {
    pub at: usize,
    pub len: usize,
}

fn footer_len(ec: bool) -> usize
    ensures { result ≡ footer_len ec }
{
    if ec { 8 } else { 3 }
}

fn size_told(footer: &[u8]) -> usize
    requires { 3 ≤ length footer.now }
    ensures { result ≡ size_told footer.now }
{
    65_536 * footer[0] as usize + 256 * footer[1] as usize + footer[2] as usize
}

/// The last slice of the bytes, where so many slices may still be.
#[tactic(auto, unfolding(crate::specs::Footers::last_size, crate::specs::Footers::slice_place, crate::specs::Footers::last_fault))]
pub(crate) fn last_slice(bytes: &[u8], ec: bool, room: usize) -> Result<Span, FrameWhy>
    ensures ok { OnOk result (last_fault ec room bytes.now ≡ None) }
    ensures at { IfOk result (λ span. span.at ≡ slice_place ec bytes.now) }
    ensures len { IfOk result (λ span. span.len ≡ last_size ec bytes.now) }
    ensures within { IfOk result (λ span. span.at + span.len < length bytes.now) }
    ensures err { IfErr result (λ why. last_fault ec room bytes.now ≡ Some why) }
{
    let footer = footer_len(ec);
    if bytes.len() < footer {
        return Err(FrameWhy::FrameShort);
    }
    let end = bytes.len() - footer;
    let len = size_told(&bytes[end..]);
    if len == 0 || len > end || room == 0 {
        return Err(FrameWhy::SliceSize);
    }
    let at = end - len;
    if ec && crc32_high(&bytes[at..]) != 0 {
        return Err(FrameWhy::SliceCrc);
    }
    Ok(Span { at, len })
}

ghost use Rattle.std.specs.Prelude.{◌≡◌, ◌+◌, ◌≤◌, length, min, Some, None, IfOk, OnOk, IfErr};
ghost use Rattle.dpx_header.specs.Layout.{IsWellFormed, image_rules, image_size, first_broken, layout_of, sample_rules};

use crate::header::{HEADER_LEN, Header, header_of, is_dpx};
use crate::rules::{fits, is_depth, is_packing, is_size, line_len, stride_of};
use crate::{DpxWhy, Layout};

// What a field of 16 or 32 bits holds that the writer left undefined.
const UNDEFINED_16: u16 = 0xFFFF;

const UNDEFINED_32: u32 = 0xFFFF_FFFF;

/// The layout of a DPX file of `file_len` bytes that begins with `head` (SMPTE 268M, file
/// information header and image information header), or the first rule of [`DpxWhy`] that it breaks.
/// All that counts is the first 1,664 bytes. The stride is the line rounded up to a multiple of 4
/// bytes where the file has room for that, else the line itself. It takes no memory.
#[tactic(auto, using(crate::proofs::Kept::layouts), unfolding(crate::specs::Layout::layout_of))]
pub fn layout(head: &[u8], file_len: u64) -> Result<Layout, DpxWhy>
    requires { min 1664 file_len ≤ length head.now }
    ensures exact { result ≡ layout_of head.now file_len }
    ensures formed { IfOk result (λ layout. IsWellFormed layout) }
    ensures after_header { IfOk result (λ layout. 1664 ≤ layout.head_len) }
    ensures in_file { IfOk result (λ layout. layout.head_len + image_size layout ≤ file_len) }
{
    if file_len < HEADER_LEN as u64 {
        return Err(DpxWhy::Short);
    }
    if !is_dpx(head) {
        return Err(DpxWhy::Magic);
    }
    let header = header_of(head);
    keeps_image_rules(&header, file_len)?;
    keeps_sample_rules(&header, file_len)?;
    Ok(Layout {
        big: header.big,
        bits: header.depth,
        width: header.width,
        height: header.height,
        head_len: header.offset,
        stride: stride_of(&header, file_len),
    })
}

// The rules on the image's place, number and size.
fn keeps_image_rules(header: &Header, file_len: u64) -> Result<(), DpxWhy>
    ensures kept { OnOk result (first_broken (image_rules header.now file_len) ≡ None) }
    ensures broken { IfErr result (λ why. first_broken (image_rules header.now file_len) ≡ Some why) }
    ensures width { OnOk result (header.now.width ≤ 16384) }
    ensures height { OnOk result (header.now.height ≤ 16384) }
{
    if header.offset < HEADER_LEN as u32 || u64::from(header.offset) > file_len {
        return Err(DpxWhy::Offset);
    }
    if header.elements != 1 {
        return Err(DpxWhy::Elements);
    }
    if !is_size(header.width, header.height) {
        return Err(DpxWhy::Size);
    }
    Ok(())
}

// The rules on how its samples lie.
fn keeps_sample_rules(header: &Header, file_len: u64) -> Result<(), DpxWhy>
    requires width { header.now.width ≤ 16384 }
    requires height { header.now.height ≤ 16384 }
    ensures kept { OnOk result (first_broken (sample_rules header.now file_len) ≡ None) }
    ensures broken { IfErr result (λ why. first_broken (sample_rules header.now file_len) ≡ Some why) }
{
    if header.descriptor != 50 {
        return Err(DpxWhy::Descriptor);
    }
    if !is_depth(header.depth) {
        return Err(DpxWhy::Depth);
    }
    if !is_packing(header.depth, header.packing) {
        return Err(DpxWhy::Packing);
    }
    if header.encoding != 0 && header.encoding != UNDEFINED_16 {
        return Err(DpxWhy::Encoding);
    }
    if header.line_padding != 0 && header.line_padding != UNDEFINED_32 {
        return Err(DpxWhy::LinePadding);
    }
    if !fits(line_len(header.depth, header.width), header, file_len) {
        return Err(DpxWhy::Truncated);
    }
    Ok(())
}

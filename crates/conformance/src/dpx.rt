// The layouts of DPX files, and the samples and pads of their images.

ghost use Rattle.std.specs.Prelude.{IsTrue, OnOk, ◌≤◌};
ghost use Rattle.dpx_header.specs.Layout.{IsWellFormed, is_stride, line_len};
ghost use Rattle.dpx_packing.specs.FrameParts.{SamplesFit};

use crate::params::{is_depth, is_picture};
use crate::stop::Stop;
use crate::{answer, parse};
use dpx_header::{Layout, image_len, line_len, pad_len, sample_len};
use dpx_packing::{pad_fill, pad_record, pads_fit};
use std::alloc::Global;

/// The answer to a case of frames, if the words are one: a layout that is read, an image that is taken apart or put together,
/// pads and their forms.
pub fn answer_to(alloc: Global, words: &[&str]) -> Option<Result<String, Stop>> {
    Some(match words {
        ["layout", file_len, head] => layout_of(alloc, file_len, head),
        ["parts", layout @ .., image] => parts(alloc, layout, image),
        ["image", layout @ .., samples, pads] => image_of(alloc, layout, samples, pads),
        ["fits", layout @ .., pads] => fit(alloc, layout, pads),
        ["pads", pads] => form_of(alloc, pads),
        ["fill", count, form] => filled(alloc, count, form),
        _ => return None,
    })
}

// The six words of a layout.
fn layout_read(words: &[&str]) -> Result<Layout, Stop> {
    let [big, bits, width, height, head_len, stride] = words else {
        return Err(Stop::Unreadable);
    };
    Ok(Layout {
        big: parse::switch(big)?,
        bits: parse::number(bits)?,
        width: parse::number(width)?,
        height: parse::number(height)?,
        head_len: parse::number(head_len)?,
        stride: parse::number(stride)?,
    })
}

fn layout_of(alloc: Global, file_len: &str, head: &str) -> Result<String, Stop> {
    let file_len: u64 = parse::number(file_len)?;
    let head = parse::bytes(alloc, head)?;
    if (head.len() as u64) < file_len.min(1664) {
        return Err(Stop::OutOfRange);
    }
    match dpx_header::layout(head.as_slice(), file_len) {
        Ok(layout) => layout_told(alloc, &layout),
        Err(why) => Ok(format!(in alloc; "{why}")?),
    }
}

fn layout_told(alloc: Global, layout: &Layout) -> Result<String, Stop> {
    let (big, bits, width) = (u8::from(layout.big), layout.bits, layout.width);
    let (height, head_len, stride) = (layout.height, layout.head_len, layout.stride);
    Ok(format!(in alloc; "{big} {bits} {width} {height} {head_len} {stride}")?)
}

// Whether lines of so many bytes may lie at this stride.
fn is_stride(line: u32, stride: u32) -> bool
    requires { line ≤ 98304 }
    ensures { IsTrue result → IsTrue (is_stride line stride) }
{
    stride == line || stride == (line + 3) / 4 * 4
}

/// Whether the layout is well formed.
pub fn is_well_formed(layout: &Layout) -> bool
    ensures { IsTrue result → IsWellFormed layout.now }
{
    is_picture(layout.width, layout.height)
        && is_depth(layout.bits)
        && is_stride(line_len(layout.bits, layout.width), layout.stride)
}

// Whether each sample is of its bits.
#[tactic(auto, unfolding(dpx_packing::specs::FrameParts::SamplesFit))]
fn samples_fit(layout: &Layout, samples: &[u16]) -> bool
    requires { IsWellFormed layout.now }
    ensures { IsTrue result → SamplesFit layout.now samples.now }
{
    let limit = 1u32 << layout.bits;
    samples.iter().all(|sample| u32::from(*sample) < limit)
}

fn parts(alloc: Global, layout: &[&str], image: &str) -> Result<String, Stop> {
    let layout = layout_read(layout)?;
    let image = parse::bytes(alloc, image)?;
    if !is_well_formed(&layout) || image.len() as u64 != image_len(&layout) {
        return Err(Stop::OutOfRange);
    }
    let mut samples = vec![in alloc; 0u16; sample_len(&layout)]?;
    let mut pads = vec![in alloc; 0u8; pad_len(&layout)]?;
    dpx_packing::split(&layout, image.as_slice(), &mut samples, &mut pads);
    let samples = answer::samples(alloc, samples.as_slice())?;
    let pads = answer::pads(alloc, pads.as_slice())?;
    Ok(format!(in alloc; "{samples} {pads}")?)
}

// The image of samples and pads.
fn joined(alloc: Global, layout: &Layout, samples: &[u16], pads: &[u8]) -> Result<Vec<u8>, Stop> {
    if !is_well_formed(layout) {
        return Err(Stop::OutOfRange);
    }
    if samples.len() != sample_len(layout) || pads.len() != pad_len(layout) {
        return Err(Stop::OutOfRange);
    }
    if !samples_fit(layout, samples) || !pads_fit(layout, pads) {
        return Err(Stop::OutOfRange);
    }
    let mut image = vec![in alloc; 0u8; image_len(layout) as usize]?;
    dpx_packing::join(layout, samples, pads, &mut image);
    Ok(image)
}

fn image_of(alloc: Global, layout: &[&str], samples: &str, pads: &str) -> Result<String, Stop> {
    let layout = layout_read(layout)?;
    let samples = parse::numbers(alloc, samples)?;
    let pads = parse::numbers(alloc, pads)?;
    let image = joined(alloc, &layout, samples.as_slice(), pads.as_slice())?;
    answer::bytes(alloc, image.as_slice())
}

fn fit(alloc: Global, layout: &[&str], pads: &str) -> Result<String, Stop> {
    let layout = layout_read(layout)?;
    let pads: Vec<u8> = parse::numbers(alloc, pads)?;
    if !is_well_formed(&layout) || pads.len() != pad_len(&layout) {
        return Err(Stop::OutOfRange);
    }
    let fit = u8::from(pads_fit(&layout, pads.as_slice()));
    Ok(format!(in alloc; "{fit}")?)
}

fn form_of(alloc: Global, pads: &str) -> Result<String, Stop> {
    let pads: Vec<u8> = parse::numbers(alloc, pads)?;
    if pads.len() > u32::MAX as usize {
        return Err(Stop::OutOfRange);
    }
    answer::bytes(alloc, pad_record(alloc, pads.as_slice())?.as_slice())
}

fn filled(alloc: Global, count: &str, form: &str) -> Result<String, Stop> {
    let count: u32 = parse::number(count)?;
    let form = parse::bytes(alloc, form)?;
    let mut pads = vec![in alloc; 0u8; count as usize]?;
    match pad_fill(form.as_slice(), &mut pads) {
        Ok(()) => answer::pads(alloc, pads.as_slice()),
        Err(_) => Ok(String::from_str(alloc, "bad")?),
    }
}

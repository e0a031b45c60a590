// The image of a frame, taken apart and put together by lines.

ghost use Rattle.std.specs.Prelude.{◌≡◌, ◌^◌, ◌*◌, ◌+◌, ◌<◌, ◌≤◌, ◌↔◌, ℕ, List, length, take, drop, IsTrue};
ghost use Rattle.dpx_header.specs.Layout.{IsWellFormed, image_size, line_len, pad_count, pads_in_line, sample_count};
ghost use Rattle.dpx_packing.specs.Blocks.{repeated, with_spare};
ghost use Rattle.dpx_packing.specs.FrameParts.{spare_of, line_of, samples_of, pads_of, image_of, SamplesFit, PadsFit};
ghost use Rattle.dpx_packing.specs.Units.{unit_of, units_in_line, pad_limit, AreBelow, FitUnit};

use crate::blocks::{Block, join_blocks, split_blocks};
use crate::line::Line;
use crate::units::{Unit8, Unit10, Unit12, Unit16};
use byteorder::{BE, LE};
use dpx_header::laws::layouts_are_bounded;
use dpx_header::{Layout, line_len, pads_in_line};
use std::marker::PhantomData;

// The bytes of the stride past a line.
fn spare_len(layout: &Layout) -> u32
    requires { IsWellFormed layout.now }
    ensures { result ≡ spare_of layout.now }
{
    layout.stride - line_len(layout.bits, layout.width)
}

// The units of a line: one a pixel at 10 bits, and else one a sample.
fn unit_count(layout: &Layout) -> u32
    requires { IsWellFormed layout.now }
    ensures { result ≡ units_in_line layout.now.bits layout.now.width }
{
    if layout.bits == 10 {
        layout.width
    } else {
        3 * layout.width
    }
}

fn line_of<'a, U: Block>(unit: &'a U, layout: &Layout) -> Line<'a, U>
    requires well_formed { IsWellFormed layout.now }
    requires form { U.form unit.now ≡ unit_of layout.now.big layout.now.bits }
    ensures unit { result.unit.now ≡ unit.now }
    ensures form { with_spare (repeated (U.form result.unit.now) result.units) result.spare ≡ line_of layout.now }
    ensures pads { result.units * (U.form result.unit.now).pads ≡ pads_in_line layout.now.bits layout.now.width }
{
    Line {
        unit,
        units: unit_count(layout) as usize,
        spare: spare_len(layout) as usize,
    }
}

fn split_lines<U: Block>(
    unit: &U,
    layout: &Layout,
    image: &[u8],
    samples: &mut [u16],
    pads: &mut [u8],
)
    requires sound { U.IsSound unit.now }
    requires form { U.form unit.now ≡ unit_of layout.now.big layout.now.bits }
    requires well_formed { IsWellFormed layout.now }
    requires image_len { length image.now ≡ image_size layout.now }
    requires sample_len { length samples.old ≡ sample_count layout.now }
    requires pad_len { length pads.old ≡ pad_count layout.now }
    ensures samples { samples.new ≡ samples_of layout.now image.now }
    ensures pads { pads.new ≡ pads_of layout.now image.now }
    ensures samples_fit { SamplesFit layout.now samples.new }
    ensures pads_fit { PadsFit layout.now pads.new }
{
    layouts_are_bounded();
    let line = line_of(unit, layout);
    split_blocks(&line, layout.height as usize, image, samples, pads)
}

fn join_lines<U: Block>(unit: &U, layout: &Layout, samples: &[u16], pads: &[u8], image: &mut [u8])
    requires sound { U.IsSound unit.now }
    requires form { U.form unit.now ≡ unit_of layout.now.big layout.now.bits }
    requires fits { (samples pads : List ℕ)
        → FitUnit (2 ^ layout.now.bits) (pad_limit layout.now.bits) samples pads
        → U.Fits unit.now samples pads }
    requires well_formed { IsWellFormed layout.now }
    requires sample_len { length samples.now ≡ sample_count layout.now }
    requires pad_len { length pads.now ≡ pad_count layout.now }
    requires image_len { length image.old ≡ image_size layout.now }
    requires samples_fit { SamplesFit layout.now samples.now }
    requires pads_fit { PadsFit layout.now pads.now }
    ensures { image.new ≡ image_of layout.now samples.now pads.now }
{
    layouts_are_bounded();
    let line = line_of(unit, layout);
    join_blocks(&line, layout.height as usize, samples, pads, image)
}

/// Takes an image apart. The samples are red, green and blue of each pixel, line by line. The pads are
/// line by line the values of the fill bits, one a pixel at 10 bits and one a sample at 12, and then
/// the bytes of the stride past the line. It takes no memory.
pub fn split(layout: &Layout, image: &[u8], samples: &mut [u16], pads: &mut [u8])
    requires well_formed { IsWellFormed layout.now }
    requires image_len { length image.now ≡ image_size layout.now }
    requires sample_len { length samples.old ≡ sample_count layout.now }
    requires pad_len { length pads.old ≡ pad_count layout.now }
    ensures samples { samples.new ≡ samples_of layout.now image.now }
    ensures pads { pads.new ≡ pads_of layout.now image.now }
    ensures samples_fit { SamplesFit layout.now samples.new }
    ensures pads_fit { PadsFit layout.now pads.new }
{
    match (layout.bits, layout.big) {
        (8, _) => split_lines(&Unit8, layout, image, samples, pads),
        (10, true) => split_lines(&Unit10::<BE>(PhantomData), layout, image, samples, pads),
        (10, false) => split_lines(&Unit10::<LE>(PhantomData), layout, image, samples, pads),
        (12, true) => split_lines(&Unit12::<BE>(PhantomData), layout, image, samples, pads),
        (12, false) => split_lines(&Unit12::<LE>(PhantomData), layout, image, samples, pads),
        (_, true) => split_lines(&Unit16::<BE>(PhantomData), layout, image, samples, pads),
        (_, false) => split_lines(&Unit16::<LE>(PhantomData), layout, image, samples, pads),
    }
}

/// Puts an image together: the one that `split` takes apart into these samples and pads. It takes no
/// memory.
pub fn join(layout: &Layout, samples: &[u16], pads: &[u8], image: &mut [u8])
    requires well_formed { IsWellFormed layout.now }
    requires sample_len { length samples.now ≡ sample_count layout.now }
    requires pad_len { length pads.now ≡ pad_count layout.now }
    requires image_len { length image.old ≡ image_size layout.now }
    requires samples_fit { SamplesFit layout.now samples.now }
    requires pads_fit { PadsFit layout.now pads.now }
    ensures { image.new ≡ image_of layout.now samples.now pads.now }
{
    match (layout.bits, layout.big) {
        (8, _) => join_lines(&Unit8, layout, samples, pads, image),
        (10, true) => join_lines(&Unit10::<BE>(PhantomData), layout, samples, pads, image),
        (10, false) => join_lines(&Unit10::<LE>(PhantomData), layout, samples, pads, image),
        (12, true) => join_lines(&Unit12::<BE>(PhantomData), layout, samples, pads, image),
        (12, false) => join_lines(&Unit12::<LE>(PhantomData), layout, samples, pads, image),
        (_, true) => join_lines(&Unit16::<BE>(PhantomData), layout, samples, pads, image),
        (_, false) => join_lines(&Unit16::<LE>(PhantomData), layout, samples, pads, image),
    }
}

// Whether all are below the limit. It goes to the end in any case, so that LLVM can vectorise it.
fn are_below(limit: u8, pads: &[u8]) -> bool
    ensures { IsTrue result ↔ AreBelow limit pads.now }
{
    let mut below = true;
    for pad in pads {
        below &= *pad < limit;
    }
    below
}

// Whether the first `units` of each line's pads are below the limit.
fn lines_fit(limit: u8, units: usize, line: usize, height: usize, pads: &[u8]) -> bool
    requires len { length pads.now ≡ height * line }
    requires units { units ≤ line }
    ensures { IsTrue result ↔ ((y : ℕ) → y < height → AreBelow limit (take units (drop (y * line) pads.now))) }
{
    for y in 0..height {
        let from = y * line;
        if !are_below(limit, &pads[from..from + units]) {
            return false;
        }
    }
    true
}

// The pads of units are below this.
fn pad_limit(bits: u8) -> u8
    ensures { result ≡ pad_limit bits }
{
    if bits == 10 { 4 } else { 16 }
}

/// Whether each pad fits its fill bits: two at 10 bits, four at 12. The bytes of the stride past a line
/// always fit. It takes no memory.
#[tactic(auto, unfolding(crate::specs::FrameParts::PadsFit))]
pub fn pads_fit(layout: &Layout, pads: &[u8]) -> bool
    requires well_formed { IsWellFormed layout.now }
    requires pad_len { length pads.now ≡ pad_count layout.now }
    ensures { IsTrue result ↔ PadsFit layout.now pads.now }
{
    let units = pads_in_line(layout.bits, layout.width) as usize;
    let line = units + spare_len(layout) as usize;
    lines_fit(
        pad_limit(layout.bits),
        units,
        line,
        layout.height as usize,
        pads,
    )
}

ghost use Rattle.std.specs.Prelude.{◌≡◌, ◌+◌, ◌<◌, ◌≤◌, IfOk, IfErr, IfSome};
ghost use Rattle.shelf_reader.specs.Keeping.{known, IsReady, Reads, IsFault};
ghost use Rattle.shelf_reader.specs.Readings.{answers, Answers};
ghost use Rattle.shelf_reader.specs.Seen.{Seen};
ghost use Rattle.matroska_read.specs.Walk.{head_in, element_of, element_in, segment_of, segment_in};
ghost use Rattle.matroska_read.specs.Inside.{IsInside};

use crate::error::{OutlineFault, Reading, shape};
use crate::parts::Element;
use ebml_core::{Head, Size, head};
use matroska_names::ids::SEGMENT;
use shelf_core::Shelf;
use shelf_reader::{Items, Reader};

/// The longest head: an identifier of 4 bytes and a size of 8.
const LONGEST_HEAD: u64 = 12;

// The head at a place of a parent that ends at `end`, where there is one.
#[tactic(auto, using(crate::proofs::HeadLaws::head_laws, shelf_reader::specs::ReadingLaws::reading_laws))]
fn read_head<S: Shelf>(
    reader: &mut Reader<'_, '_, S>,
    place: u64,
    end: u64,
) -> Reading<Option<Head>>
    requires ready { IsReady S.Shelf reader.old }
    requires before { place ≤ end }
    requires within { end ≤ reader.old.len }
    ensures exact { Answers (known S.Shelf reader.old) (answers (head_in end place)) result }
    ensures len { IfOk result (λ head. IfSome head (λ h. (2 ≤ h.len) × (place + h.len ≤ end))) }
    ensures reads { Reads S.Shelf reader.old reader.new result }
{
    let to = place + (end - place).min(LONGEST_HEAD);
    reader.show(place, to)?;
    Ok(head(reader.part(place, to)))
}

// The element that a head begins at a place of a parent that ends at `end`. Its size is compared with the parent's end
// before it is believed.
#[tactic(auto, using(shelf_reader::specs::ReadingLaws::reading_laws), unfolding(crate::specs::Walk::element_of, crate::specs::Walk::sized))]
fn element_of(end: u64, place: u64, head: Option<Head>) -> Reading<Element>
    requires { IfSome head (λ h. (2 ≤ h.len) × (place + h.len ≤ end)) }
    ensures exact { (known : Seen) → Answers known (element_of end place head) result }
    ensures inside { IfOk result (IsInside place end) }
    ensures fault { IfErr result IsFault }
{
    let Some(Head { id, size, len }) = head else {
        return Err(shape(place));
    };
    let start = place + len as u64;
    match size {
        Size::Known(size) if size <= end - start => Ok(Element {
            place,
            id,
            start,
            end: start + size,
        }),
        _ => Err(shape(place)),
    }
}

// The Segment that a head begins at a place of a file that ends at `end`. One of unknown size ends with the file.
#[tactic(auto, using(shelf_reader::specs::ReadingLaws::reading_laws), unfolding(crate::specs::Walk::segment_of, crate::specs::Walk::segment_sized, crate::specs::Walk::element_of, crate::specs::Walk::sized))]
fn segment_of(end: u64, place: u64, head: Option<Head>) -> Reading<Element>
    requires { IfSome head (λ h. (2 ≤ h.len) × (place + h.len ≤ end)) }
    ensures exact { (known : Seen) → Answers known (segment_of end place head) result }
    ensures inside { IfOk result (IsInside place end) }
    ensures fault { IfErr result IsFault }
{
    let Some(Head { id, size, len }) = head else {
        return Err(shape(place));
    };
    if id != SEGMENT {
        return Err(shape(place));
    }
    match size {
        Size::Unknown => Ok(Element {
            place,
            id,
            start: place + len as u64,
            end,
        }),
        Size::Known(_) => element_of(end, place, head),
    }
}

/// The elements of EBML (RFC 8794, section 3), which stand one after the other in their parent.
pub struct Ebml;

impl Items for Ebml {
    ghost use Rattle.matroska_read.specs.Walk.{ebml};
    ghost use Rattle.matroska_read.specs.Inside.{KeepsInside};
    ghost use Rattle.matroska_read.specs.WalkGoesOn.{element_goes_on, keeps-ends, keeps-widens};

    type Item = Element;

    type Fault = OutlineFault;

    ghost grammar = { ebml };

    ghost Sits = { KeepsInside };

    fn behind(item: Element) -> u64 {
        item.end
    }

    fn item<S: Shelf>(reader: &mut Reader<'_, '_, S>, place: u64, end: u64) -> Reading<Element> {
        read_element(reader, place, end)
    }

    ghost ends = { keeps-ends };

    ghost widens = { keeps-widens };

    ghost goes_on = { element_goes_on };
}

/// The element at a place of a parent that ends at `end`.
#[tactic(auto, using(shelf_reader::specs::ReadingLaws::reading_laws, shelf_reader::specs::KeepingLaws::keeping_laws), unfolding(crate::specs::Walk::element_in))]
pub fn read_element<S: Shelf>(
    reader: &mut Reader<'_, '_, S>,
    place: u64,
    end: u64,
) -> Reading<Element>
    requires ready { IsReady S.Shelf reader.old }
    requires before { place ≤ end }
    requires within { end ≤ reader.old.len }
    ensures exact { Answers (known S.Shelf reader.old) (element_in end place) result }
    ensures inside { IfOk result (IsInside place end) }
    ensures reads { Reads S.Shelf reader.old reader.new result }
{
    let head = read_head(reader, place, end)?;
    element_of(end, place, head)
}

/// The Segment at a place of the file.
#[tactic(auto, using(shelf_reader::specs::ReadingLaws::reading_laws, shelf_reader::specs::KeepingLaws::keeping_laws), unfolding(crate::specs::Walk::segment_in))]
pub fn read_segment_head<S: Shelf>(reader: &mut Reader<'_, '_, S>, place: u64) -> Reading<Element>
    requires ready { IsReady S.Shelf reader.old }
    requires within { place ≤ reader.old.len }
    ensures exact { Answers (known S.Shelf reader.old) (segment_in reader.old.len place) result }
    ensures inside { IfOk result (IsInside place reader.old.len) }
    ensures reads { Reads S.Shelf reader.old reader.new result }
{
    let end = reader.len();
    let head = read_head(reader, place, end)?;
    segment_of(end, place, head)
}

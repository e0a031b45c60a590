ghost use Rattle.std.specs.Prelude.{◌≡◌, ◌≤◌, IfOk};
ghost use Rattle.shelf_reader.specs.Keeping.{known, IsReady, Reads};
ghost use Rattle.shelf_reader.specs.Readings.{answers, Answers};
ghost use Rattle.matroska_read.specs.Outline.{is_understood, is_number_understood, bounds, bounds_of, header_of, header_read};
ghost use Rattle.matroska_read.specs.Inside.{KeepsInside};

use crate::element::{Ebml, read_element};
use crate::error::{Reading, shape};
use crate::numbers::{LONGEST_NUMBER, number_of};
use crate::parts::{Bounds, Element, HeaderSeen};
use matroska_names::ids::{
    DOC_TYPE, DOC_TYPE_READ_VERSION, EBML, EBML_MAX_ID_LENGTH, EBML_MAX_SIZE_LENGTH,
    EBML_READ_VERSION,
};
use matroska_names::texts::MATROSKA;
use shelf_core::Shelf;
use shelf_reader::{Children, Reader, walk};

fn bounds(when_empty: u64, least: u64, most: u64) -> Bounds
    ensures { result ≡ bounds when_empty least most }
{
    Bounds {
        when_empty,
        least,
        most,
    }
}

// The bounds of a number of the header, by its identifier.
#[tactic(auto, unfolding(crate::specs::Outline::bounds_of))]
fn bounds_of(id: u32) -> Option<Bounds>
    ensures { result ≡ bounds_of id }
{
    match id {
        EBML_READ_VERSION => Some(bounds(1, 1, 1)),
        EBML_MAX_ID_LENGTH => Some(bounds(4, 0, 4)),
        EBML_MAX_SIZE_LENGTH => Some(bounds(8, 0, 8)),
        DOC_TYPE_READ_VERSION => Some(bounds(1, 0, 4)),
        _ => None,
    }
}

// Whether the content of a number is understood.
#[tactic(auto, unfolding(crate::specs::Outline::is_understood))]
fn is_understood(bounds: Bounds, content: &[u8]) -> bool
    ensures { result ≡ is_understood bounds content.now }
{
    if content.len() as u64 > LONGEST_NUMBER {
        return false;
    }
    let number = number_of(bounds.when_empty, content);
    bounds.least <= number && number <= bounds.most
}

// Whether a number of the header is understood.
#[tactic(auto, using(shelf_reader::specs::ReadingLaws::reading_laws, shelf_reader::specs::KeepingLaws::keeping_laws, crate::proofs::NumberLaws::number_laws))]
fn is_number_understood<S: Shelf>(
    reader: &mut Reader<'_, '_, S>,
    child: Element,
    bounds: Bounds,
) -> Reading<bool>
    requires ready { IsReady S.Shelf reader.old }
    requires inside { KeepsInside reader.old.len child }
    ensures exact { Answers (known S.Shelf reader.old) (answers (is_number_understood bounds child)) result }
    ensures reads { Reads S.Shelf reader.old reader.new result }
{
    if child.end - child.start > LONGEST_NUMBER {
        return Ok(false);
    }
    reader.show(child.start, child.end)?;
    Ok(is_understood(bounds, reader.part(child.start, child.end)))
}

#[tactic(auto, using(shelf_reader::specs::ReadingLaws::reading_laws, shelf_reader::specs::KeepingLaws::keeping_laws), unfolding(crate::specs::Outline::visit_header, crate::specs::Outline::number_visited))]
impl Children<Ebml> for HeaderSeen {
    ghost use Rattle.matroska_read.specs.Outline.{visit_header};

    ghost visit = { visit_header };

    ghost Fits = { λ len seen. Unit {0} };

    fn with_child<S: Shelf>(
        self,
        reader: &mut Reader<'_, '_, S>,
        child: Element,
    ) -> Reading<HeaderSeen> {
        let place = child.place;
        if child.id == DOC_TYPE {
            if reader.is_text(child.start, child.end, MATROSKA.as_bytes())? {
                return Ok(HeaderSeen { doc_type: true });
            }
            return Err(shape(place));
        }
        let Some(bounds) = bounds_of(child.id) else {
            return Ok(self);
        };
        if is_number_understood(reader, child, bounds)? {
            return Ok(self);
        }
        Err(shape(place))
    }
}

// The children of the header, and the place behind it.
#[tactic(auto, using(shelf_reader::specs::ReadingLaws::reading_laws, shelf_reader::specs::KeepingLaws::keeping_laws), unfolding(crate::specs::Outline::header_read))]
fn header_children<S: Shelf>(reader: &mut Reader<'_, '_, S>, header: Element) -> Reading<u64>
    requires ready { IsReady S.Shelf reader.old }
    requires inside { KeepsInside reader.old.len header }
    ensures exact { Answers (known S.Shelf reader.old) (header_read header) result }
    ensures behind { IfOk result (λ place. place ≤ reader.old.len) }
    ensures reads { Reads S.Shelf reader.old reader.new result }
{
    let unseen = HeaderSeen { doc_type: false };
    let seen = walk::<S, Ebml, HeaderSeen>(reader, unseen, header.start, header.end)?;
    if seen.doc_type {
        Ok(header.end)
    } else {
        Err(shape(header.place))
    }
}

/// Reads the EBML header that a file begins with, and answers the place behind it.
#[tactic(auto, using(shelf_reader::specs::ReadingLaws::reading_laws, shelf_reader::specs::KeepingLaws::keeping_laws), unfolding(crate::specs::Outline::header_of))]
pub fn read_header<S: Shelf>(reader: &mut Reader<'_, '_, S>) -> Reading<u64>
    requires ready { IsReady S.Shelf reader.old }
    ensures exact { Answers (known S.Shelf reader.old) (header_of reader.old.len) result }
    ensures behind { IfOk result (λ place. place ≤ reader.old.len) }
    ensures reads { Reads S.Shelf reader.old reader.new result }
{
    let end = reader.len();
    let header = read_element(reader, 0, end)?;
    if header.id != EBML {
        return Err(shape(0));
    }
    header_children(reader, header)
}

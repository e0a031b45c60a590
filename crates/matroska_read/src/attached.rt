ghost use Rattle.std.specs.Prelude.{◌≡◌, ◌≤◌, ℕ, IfOk, IfSome};
ghost use Rattle.shelf_reader.specs.Keeping.{known, IsReady, Reads};
ghost use Rattle.shelf_reader.specs.Readings.{Answers};
ghost use Rattle.matroska_read.specs.Walk.{span_of, first_of};
ghost use Rattle.matroska_read.specs.Outline.{no_fields, with_field, file_at, file_of, file_read};
ghost use Rattle.matroska_read.specs.Inside.{IsSpan, AreSpans, EndsBy, KeepsInside};

use crate::element::Ebml;
use crate::error::{Reading, shape};
use crate::files::FileAt;
use crate::parts::{Element, Fields, Span};
use matroska_names::ids::{FILE_DATA, FILE_MEDIA_TYPE, FILE_NAME};
use matroska_names::texts::SIDE_MEDIA_TYPE;
use shelf_core::Shelf;
use shelf_reader::{Children, Reader, walk};

/// Of repeated children the first counts.
pub fn first_of(span: Option<Span>, child: Element) -> Option<Span>
    ensures exact { result ≡ first_of span child }
    ensures spans { (end : ℕ) → IfSome span (IsSpan end) → IsSpan end (span_of child) → IfSome result (IsSpan end) }
{
    match span {
        Some(span) => Some(span),
        None => Some(Span {
            start: child.start,
            end: child.end,
        }),
    }
}

// What was seen, with one more child.
#[tactic(auto, unfolding(crate::specs::Outline::with_field))]
fn with_field(fields: Fields, child: Element) -> Fields
    ensures exact { result ≡ with_field fields child }
    ensures spans { (end : ℕ) → AreSpans end fields → IsSpan end (span_of child) → AreSpans end result }
{
    let Fields {
        name,
        media_type,
        content,
    } = fields;
    match child.id {
        FILE_NAME => Fields {
            name: first_of(name, child),
            media_type,
            content,
        },
        FILE_MEDIA_TYPE => Fields {
            name,
            media_type: first_of(media_type, child),
            content,
        },
        FILE_DATA => Fields {
            name,
            media_type,
            content: first_of(content, child),
        },
        _ => fields,
    }
}

#[tactic(auto, using(shelf_reader::specs::ReadingLaws::reading_laws, shelf_reader::specs::KeepingLaws::keeping_laws), unfolding(crate::specs::Outline::visit_field))]
impl Children<Ebml> for Fields {
    ghost use Rattle.matroska_read.specs.Outline.{visit_field};
    ghost use Rattle.matroska_read.specs.Inside.{AreSpans};

    ghost visit = { visit_field };

    ghost Fits = { AreSpans };

    fn with_child<S: Shelf>(
        self,
        reader: &mut Reader<'_, '_, S>,
        child: Element,
    ) -> Reading<Fields> {
        let _ = reader;
        Ok(with_field(self, child))
    }
}

// The file of a name, a media type and a content.
#[tactic(auto, using(shelf_reader::specs::ReadingLaws::reading_laws, shelf_reader::specs::KeepingLaws::keeping_laws), unfolding(crate::specs::Outline::file_at))]
fn read_spans<S: Shelf>(
    reader: &mut Reader<'_, '_, S>,
    name: Span,
    media_type: Span,
    content: Span,
) -> Reading<FileAt>
    requires ready { IsReady S.Shelf reader.old }
    requires name { IsSpan reader.old.len name }
    requires media_type { IsSpan reader.old.len media_type }
    requires content { IsSpan reader.old.len content }
    ensures exact { Answers (known S.Shelf reader.old) (file_at name media_type content) result }
    ensures ends { IfOk result (EndsBy reader.old.len) }
    ensures reads { Reads S.Shelf reader.old reader.new result }
{
    let name = reader.copy(name.start, name.end)?;
    let side = reader.is_text(media_type.start, media_type.end, SIDE_MEDIA_TYPE.as_bytes())?;
    Ok(FileAt {
        name,
        side,
        at: content.start,
        len: content.end - content.start,
    })
}

// The file of an AttachedFile at a place, of which these children were seen.
#[tactic(auto, using(shelf_reader::specs::ReadingLaws::reading_laws, shelf_reader::specs::KeepingLaws::keeping_laws), unfolding(crate::specs::Outline::file_of))]
fn file_of<S: Shelf>(
    reader: &mut Reader<'_, '_, S>,
    place: u64,
    name: Option<Span>,
    media_type: Option<Span>,
    content: Option<Span>,
) -> Reading<FileAt>
    requires ready { IsReady S.Shelf reader.old }
    requires name { IfSome name (IsSpan reader.old.len) }
    requires media_type { IfSome media_type (IsSpan reader.old.len) }
    requires content { IfSome content (IsSpan reader.old.len) }
    ensures exact { Answers (known S.Shelf reader.old) (file_of place name media_type content) result }
    ensures ends { IfOk result (EndsBy reader.old.len) }
    ensures reads { Reads S.Shelf reader.old reader.new result }
{
    match (name, media_type, content) {
        (Some(name), Some(media_type), Some(content)) => {
            read_spans(reader, name, media_type, content)
        }
        _ => Err(shape(place)),
    }
}

/// The file of an AttachedFile.
#[tactic(auto, using(shelf_reader::specs::ReadingLaws::reading_laws, shelf_reader::specs::KeepingLaws::keeping_laws, crate::proofs::FileLaws::field_laws), unfolding(crate::specs::Outline::file_read))]
pub fn read_file<S: Shelf>(reader: &mut Reader<'_, '_, S>, element: Element) -> Reading<FileAt>
    requires ready { IsReady S.Shelf reader.old }
    requires inside { KeepsInside reader.old.len element }
    ensures exact { Answers (known S.Shelf reader.old) (file_read element) result }
    ensures ends { IfOk result (EndsBy reader.old.len) }
    ensures reads { Reads S.Shelf reader.old reader.new result }
{
    let unseen = Fields {
        name: None,
        media_type: None,
        content: None,
    };
    let fields = walk::<S, Ebml, Fields>(reader, unseen, element.start, element.end)?;
    file_of(
        reader,
        element.place,
        fields.name,
        fields.media_type,
        fields.content,
    )
}

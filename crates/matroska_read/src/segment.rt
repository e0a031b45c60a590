ghost use Rattle.std.specs.Prelude.{◌≤◌, None, IfOk, IfSome};
ghost use Rattle.shelf_reader.specs.Keeping.{known, IsReady, Reads};
ghost use Rattle.shelf_reader.specs.Readings.{Answers};
ghost use Rattle.matroska_read.specs.Outline.{segment_read};
ghost use Rattle.matroska_read.specs.Inside.{KeepsInside, KeepsWithin};

use crate::attachments::read_attachments;
use crate::cluster::read_cluster;
use crate::element::Ebml;
use crate::error::{Reading, shape};
use crate::files::Outline;
use crate::parts::{Element, SegmentSeen};
use crate::track_entries::read_tracks;
use crate::tracks::{Blocks, Tracks};
use matroska_names::ids::{ATTACHMENTS, CLUSTER, TRACKS};
use shelf_core::Shelf;
use shelf_reader::{Children, Reader, walk};

// The children of a Segment that are read (RFC 9559, section 5.1), as far as they were seen.
#[tactic(auto, using(shelf_reader::specs::ReadingLaws::reading_laws, shelf_reader::specs::KeepingLaws::keeping_laws, crate::proofs::FileLaws::ends_laws), unfolding(crate::specs::Outline::visit_segment, crate::specs::Outline::attachments_visited))]
impl Children<Ebml> for SegmentSeen {
    ghost use Rattle.matroska_read.specs.Outline.{visit_segment};
    ghost use Rattle.matroska_read.specs.Inside.{SegmentEndsBy};

    ghost visit = { visit_segment };

    ghost Fits = { SegmentEndsBy };

    fn with_child<S: Shelf>(
        self,
        reader: &mut Reader<'_, '_, S>,
        child: Element,
    ) -> Reading<SegmentSeen> {
        let place = child.place;
        let mut seen = self;
        match child.id {
            TRACKS if seen.listed => Err(shape(place)),
            TRACKS => {
                seen.listed = true;
                seen.tracks = read_tracks(reader, child)?;
                Ok(seen)
            }
            CLUSTER => {
                let (tracks, block) = read_cluster(reader, seen.tracks, child)?;
                seen.tracks = tracks;
                seen.blocks.push(block)?;
                Ok(seen)
            }
            ATTACHMENTS if seen.files.is_some() => Err(shape(place)),
            ATTACHMENTS => {
                seen.files = Some(read_attachments(reader, child)?);
                Ok(seen)
            }
            _ => Ok(seen),
        }
    }
}

/// The outline of a Segment, behind which the file ends.
#[tactic(auto, using(shelf_reader::specs::ReadingLaws::reading_laws, shelf_reader::specs::KeepingLaws::keeping_laws, crate::proofs::FileLaws::ends_laws), unfolding(crate::specs::Outline::segment_read))]
pub fn read_segment<S: Shelf>(reader: &mut Reader<'_, '_, S>, element: Element) -> Reading<Outline>
    requires ready { IsReady S.Shelf reader.old }
    requires inside { KeepsInside reader.old.len element }
    ensures exact { Answers (known S.Shelf reader.old) (segment_read reader.old.len element) result }
    ensures within { IfOk result (KeepsWithin reader.old.len) }
    ensures reads { Reads S.Shelf reader.old reader.new result }
{
    let alloc = reader.alloc();
    let unseen = SegmentSeen {
        listed: false,
        tracks: Tracks::new(alloc),
        blocks: Blocks::new(alloc),
        files: None,
    };
    let seen = walk::<S, Ebml, SegmentSeen>(reader, unseen, element.start, element.end)?;
    if element.end != reader.len() {
        return Err(shape(element.end));
    }
    Ok(Outline::new(alloc, seen))
}

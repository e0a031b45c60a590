ghost use Rattle.std.specs.Prelude.{◌≤◌, []};
ghost use Rattle.shelf_reader.specs.Keeping.{known, IsReady, Reads};
ghost use Rattle.shelf_reader.specs.Readings.{Answers};
ghost use Rattle.matroska_read.specs.Inside.{KeepsInside};
ghost use Rattle.matroska_read.specs.Tracks.{visit_tracks};
ghost use Rattle.matroska_read.specs.Walk.{walked_children};

use crate::element::Ebml;
use crate::entry::read_entry;
use crate::error::Reading;
use crate::parts::Element;
use crate::tracks::Tracks;
use matroska_names::ids::TRACK_ENTRY;
use shelf_core::Shelf;
use shelf_reader::{Children, Reader, walk};

#[tactic(auto, using(shelf_reader::specs::ReadingLaws::reading_laws, shelf_reader::specs::KeepingLaws::keeping_laws), unfolding(crate::specs::Tracks::visit_tracks))]
impl Children<Ebml> for Tracks {
    ghost use Rattle.matroska_read.specs.Tracks.{visit_tracks};

    ghost visit = { visit_tracks };

    ghost Fits = { λ len tracks. Unit {0} };

    fn with_child<S: Shelf>(
        self,
        reader: &mut Reader<'_, '_, S>,
        child: Element,
    ) -> Reading<Tracks> {
        let mut tracks = self;
        if child.id != TRACK_ENTRY {
            return Ok(tracks);
        }
        let track = read_entry(reader, &tracks, child)?;
        tracks.push(track)?;
        Ok(tracks)
    }
}

/// The tracks of Tracks.
pub fn read_tracks<S: Shelf>(reader: &mut Reader<'_, '_, S>, element: Element) -> Reading<Tracks>
    requires ready { IsReady S.Shelf reader.old }
    requires inside { KeepsInside reader.old.len element }
    ensures exact { Answers (known S.Shelf reader.old) (walked_children visit_tracks element []) result }
    ensures reads { Reads S.Shelf reader.old reader.new result }
{
    let tracks = Tracks::new(reader.alloc());
    walk::<S, Ebml, Tracks>(reader, tracks, element.start, element.end)
}

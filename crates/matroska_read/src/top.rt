ghost use Rattle.std.specs.Prelude.{◌≤◌, IfOk, IfErr};
ghost use Rattle.shelf_core.specs.Reads.{OnlyReads, Has};
ghost use Rattle.shelf_reader.specs.Keeping.{known, IsReady, Reads};
ghost use Rattle.shelf_reader.specs.Readings.{Answers};
ghost use Rattle.matroska_read.specs.Answered.{OutlineStops, OutlinesOn, RefusesOn};
ghost use Rattle.matroska_read.specs.Outline.{places_in};
ghost use Rattle.matroska_read.specs.Inside.{KeepsWithin};

use crate::element::read_segment_head;
use crate::error::{OutlineError, Reading};
use crate::files::Outline;
use crate::header::read_header;
use crate::segment::read_segment;
use shelf_core::Shelf;
use shelf_reader::Reader;
use std::alloc::Global;

// The outline, as a reading of what is seen of the file.
#[tactic(auto, using(shelf_reader::specs::ReadingLaws::reading_laws, shelf_reader::specs::KeepingLaws::keeping_laws), unfolding(crate::specs::Outline::places_in))]
fn read_outline<S: Shelf>(reader: &mut Reader<'_, '_, S>) -> Reading<Outline>
    requires ready { IsReady S.Shelf reader.old }
    ensures exact { Answers (known S.Shelf reader.old) (places_in reader.old.len) result }
    ensures within { IfOk result (KeepsWithin reader.old.len) }
    ensures reads { Reads S.Shelf reader.old reader.new result }
{
    let place = read_header(reader)?;
    let segment = read_segment_head(reader, place)?;
    read_segment(reader, segment)
}

/// The outline of a file of `len` bytes, read as a Matroska file (RFC 9559): its tracks, its blocks and the files that are
/// attached to it.
///
/// Where the shelf tells its files and `len` is the file's length, the answer is the definition's, also in the place of the
/// first fault. No size that the file says of an element is believed before it was compared with where its parent ends.
pub fn outline<S: Shelf>(
    alloc: Global,
    shelf: &mut S,
    name: &str,
    len: u64,
) -> Result<Outline, OutlineError>
    requires { Has S.Shelf shelf.old name.now }
    ensures exact { IfOk result (OutlinesOn S.Shelf shelf.old name.now len) }
    ensures fault { IfErr result (RefusesOn S.Shelf shelf.old name.now len) }
    ensures cause { IfErr result (OutlineStops S.Shelf len shelf.old shelf.new) }
    ensures within { IfOk result (KeepsWithin len) }
    ensures kept { OnlyReads S.Shelf shelf.old shelf.new }
{
    let mut window = Vec::new(alloc);
    let mut reader = Reader::new(alloc, shelf, name, len, &mut window);
    Ok(read_outline(&mut reader)?)
}

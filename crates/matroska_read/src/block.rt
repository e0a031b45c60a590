ghost use Rattle.std.specs.Prelude.{◌≡◌, ℕ, ◌+◌, ◌≤◌, length, IfOk, IfErr, IfSome};
ghost use Rattle.shelf_reader.specs.Keeping.{known, IsReady, Reads, IsFault};
ghost use Rattle.shelf_reader.specs.Seen.{Seen};
ghost use Rattle.shelf_reader.specs.Readings.{answers, Answers};
ghost use Rattle.matroska_read.specs.Clusters.{block_head, block_head_in, block_of, block_read};
ghost use Rattle.matroska_read.specs.Inside.{KeepsInside, BlockEndsBy};

use crate::error::{Reading, shape};
use crate::parts::{BlockHead, Element};
use crate::tracks::{BlockAt, Tracks};
use ebml_core::{Size, read_size};
use shelf_core::Shelf;
use shelf_reader::Reader;

/// The longest head of a block, in bytes: a track's number of 8, a time of 2 and flags (RFC 9559, section 10.1).
const LONGEST_BLOCK_HEAD: u64 = 11;

// The head that a block's bytes begin with: no lacing is read.
#[tactic(auto, unfolding(crate::specs::Clusters::block_head, crate::specs::Clusters::head_behind))]
fn block_head(bytes: &[u8]) -> Option<BlockHead>
    ensures exact { result ≡ block_head bytes.now }
    ensures whole { IfSome result (λ head. head.len ≤ length bytes.now) }
{
    let (Size::Known(track), len) = read_size(bytes)? else {
        return None;
    };
    if bytes.len() < len + 3 || bytes[len + 2] / 2 % 4 != 0 {
        return None;
    }
    Some(BlockHead {
        track,
        len: len + 3,
    })
}

// The head of a block, where there is one.
#[tactic(auto, using(shelf_reader::specs::ReadingLaws::reading_laws, shelf_reader::specs::KeepingLaws::keeping_laws, crate::proofs::BlockLaws::block_laws))]
fn read_block_head<S: Shelf>(
    reader: &mut Reader<'_, '_, S>,
    element: Element,
) -> Reading<Option<BlockHead>>
    requires ready { IsReady S.Shelf reader.old }
    requires inside { KeepsInside reader.old.len element }
    ensures exact { Answers (known S.Shelf reader.old) (answers (block_head_in element)) result }
    ensures whole { IfOk result (λ head. IfSome head (λ h. element.start + h.len ≤ element.end)) }
    ensures reads { Reads S.Shelf reader.old reader.new result }
{
    let to = element.start + (element.end - element.start).min(LONGEST_BLOCK_HEAD);
    reader.show(element.start, to)?;
    Ok(block_head(reader.part(element.start, to)))
}

// The block of a head, of a track that was listed.
#[tactic(auto, using(shelf_reader::specs::ReadingLaws::reading_laws), unfolding(crate::specs::Clusters::block_of))]
fn block_of(tracks: &Tracks, element: Element, head: Option<BlockHead>) -> Reading<BlockAt>
    requires whole { IfSome head (λ h. element.start + h.len ≤ element.end) }
    ensures exact { (known : Seen) → Answers known (block_of tracks.now element head) result }
    ensures ends { IfOk result (BlockEndsBy element.end) }
    ensures fault { IfErr result IsFault }
{
    let Some(BlockHead { track, len }) = head else {
        return Err(shape(element.place));
    };
    if !tracks.has_number(track) {
        return Err(shape(element.place));
    }
    let at = element.start + len as u64;
    Ok(BlockAt {
        track,
        at,
        len: element.end - at,
        damaged: false,
    })
}

/// The block of a SimpleBlock, behind these tracks.
#[tactic(auto, using(shelf_reader::specs::ReadingLaws::reading_laws, shelf_reader::specs::KeepingLaws::keeping_laws), unfolding(crate::specs::Clusters::block_read))]
pub fn read_block<S: Shelf>(
    reader: &mut Reader<'_, '_, S>,
    tracks: &Tracks,
    element: Element,
) -> Reading<BlockAt>
    requires ready { IsReady S.Shelf reader.old }
    requires inside { KeepsInside reader.old.len element }
    ensures exact { Answers (known S.Shelf reader.old) (block_read tracks.now element) result }
    ensures ends { IfOk result (BlockEndsBy element.end) }
    ensures reads { Reads S.Shelf reader.old reader.new result }
{
    let head = read_block_head(reader, element)?;
    block_of(tracks, element, head)
}

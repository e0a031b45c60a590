ghost use Rattle.std.specs.Prelude.{◌≡◌, ℕ, IfOk};
ghost use Rattle.shelf_reader.specs.Keeping.{known, IsReady, Reads};
ghost use Rattle.shelf_reader.specs.Readings.{Answers};
ghost use Rattle.matroska_read.specs.Clusters.{with_block, cluster_of, cluster_read};
ghost use Rattle.matroska_read.specs.Inside.{BlockEndsBy, ClusterKeeps, KeepsInside};

use crate::block::read_block;
use crate::checksum::test_block;
use crate::element::Ebml;
use crate::error::{Reading, shape};
use crate::parts::{ClusterSeen, Element, Span};
use crate::tracks::{BlockAt, Tracks};
use matroska_names::ids::{BLOCK_GROUP, CRC_32, SIMPLE_BLOCK};
use shelf_core::Shelf;
use shelf_reader::{Children, Reader, walk};

// The children of a Cluster that are read (RFC 9559, section 5.1.3; RFC 8794, section 11.3.1).

/// The length of a CRC-32, in bytes (RFC 8794, section 11.3.1).
const CHECKSUM_LEN: u64 = 4;

// With a block more: a second one is one too many.
fn with_block(seen: ClusterSeen, block: BlockAt) -> ClusterSeen
    ensures exact { result ≡ with_block seen block }
    ensures keeps { (end : ℕ) → ClusterKeeps end seen → BlockEndsBy end block → ClusterKeeps end result }
{
    let mut seen = seen;
    seen.begun = true;
    match seen.block {
        Some(_) => seen.faulty = true,
        None => seen.block = Some(block),
    }
    seen
}

#[tactic(auto, using(shelf_reader::specs::ReadingLaws::reading_laws, shelf_reader::specs::KeepingLaws::keeping_laws, crate::proofs::FileLaws::cluster_laws), unfolding(crate::specs::Clusters::visit_cluster))]
impl Children<Ebml> for ClusterSeen {
    ghost use Rattle.matroska_read.specs.Clusters.{visit_cluster};
    ghost use Rattle.matroska_read.specs.Inside.{ClusterKeeps};

    ghost visit = { visit_cluster };

    ghost Fits = { ClusterKeeps };

    fn with_child<S: Shelf>(
        self,
        reader: &mut Reader<'_, '_, S>,
        child: Element,
    ) -> Reading<ClusterSeen> {
        let mut seen = self;
        match child.id {
            SIMPLE_BLOCK => {
                let block = read_block(reader, &seen.tracks, child)?;
                return Ok(with_block(seen, block));
            }
            BLOCK_GROUP => seen.faulty = true,
            CRC_32 if !seen.begun && child.end - child.start == CHECKSUM_LEN => {
                seen.checksum = Some(Span {
                    start: child.start,
                    end: child.end,
                });
            }
            _ => {}
        }
        seen.begun = true;
        Ok(seen)
    }
}

// What a Cluster was seen to have, behind it: the tracks that were lent to it, and its block.
#[tactic(auto, using(shelf_reader::specs::ReadingLaws::reading_laws, shelf_reader::specs::KeepingLaws::keeping_laws), unfolding(crate::specs::Clusters::cluster_of))]
fn read_seen<S: Shelf>(
    reader: &mut Reader<'_, '_, S>,
    element: Element,
    seen: ClusterSeen,
) -> Reading<(Tracks, BlockAt)>
    requires ready { IsReady S.Shelf reader.old }
    requires inside { KeepsInside reader.old.len element }
    requires keeps { ClusterKeeps reader.old.len seen }
    ensures exact { Answers (known S.Shelf reader.old) (cluster_of element seen seen.block) result }
    ensures ends { IfOk result (λ read. BlockEndsBy reader.old.len read.1) }
    ensures reads { Reads S.Shelf reader.old reader.new result }
{
    let ClusterSeen {
        tracks,
        checksum,
        block,
        faulty,
        ..
    } = seen;
    let Some(block) = block else {
        return Err(shape(element.place));
    };
    if faulty {
        return Err(shape(element.place));
    }
    let block = test_block(reader, block, checksum, element.end)?;
    Ok((tracks, block))
}

/// The tracks that were listed before a Cluster, given back, and the Cluster's block.
#[tactic(auto, using(shelf_reader::specs::ReadingLaws::reading_laws, shelf_reader::specs::KeepingLaws::keeping_laws, crate::proofs::FileLaws::cluster_laws), unfolding(crate::specs::Clusters::cluster_read))]
pub fn read_cluster<S: Shelf>(
    reader: &mut Reader<'_, '_, S>,
    tracks: Tracks,
    element: Element,
) -> Reading<(Tracks, BlockAt)>
    requires ready { IsReady S.Shelf reader.old }
    requires inside { KeepsInside reader.old.len element }
    ensures exact { Answers (known S.Shelf reader.old) (cluster_read tracks element) result }
    ensures ends { IfOk result (λ read. BlockEndsBy reader.old.len read.1) }
    ensures reads { Reads S.Shelf reader.old reader.new result }
{
    let unseen = ClusterSeen {
        tracks,
        begun: false,
        checksum: None,
        block: None,
        faulty: false,
    };
    let seen = walk::<S, Ebml, ClusterSeen>(reader, unseen, element.start, element.end)?;
    read_seen(reader, element, seen)
}

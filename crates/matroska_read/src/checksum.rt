ghost use Rattle.std.specs.Prelude.{◌≡◌, ℕ, ◌+◌, ◌≤◌, IfOk, IfSome};
ghost use Rattle.std.specs.Int.{w32, bit_not};
ghost use Rattle.shelf_reader.specs.Keeping.{known, IsReady, Reads};
ghost use Rattle.shelf_reader.specs.Readings.{answers, Answers};
ghost use Rattle.shelf_reader.specs.Seen.{Sees};
ghost use Rattle.matroska_read.specs.Clusters.{checksum_of_between, disagrees, block_tested};
ghost use Rattle.matroska_read.specs.Inside.{IsChecksum, BlockEndsBy};

use crate::error::Reading;
use crate::parts::Span;
use crate::tracks::BlockAt;
use byteorder::{ByteOrder, LittleEndian};
use cook_bits::Crc32Ebml;
use shelf_core::Shelf;
use shelf_reader::{ROOM, Reader};

// The checksum of the bytes from one place up to another, read a window at a time.
#[tactic(auto, using(shelf_reader::specs::ReadingLaws::reading_laws, shelf_reader::specs::KeepingLaws::keeping_laws, crate::proofs::ChecksumLaws::checksum_laws))]
fn checksum_between<S: Shelf>(reader: &mut Reader<'_, '_, S>, from: u64, to: u64) -> Reading<u32>
    requires ready { IsReady S.Shelf reader.old }
    requires start { from ≤ reader.old.len }
    requires within { to ≤ reader.old.len }
    ensures exact { Answers (known S.Shelf reader.old) (answers (checksum_of_between from to)) result }
    ensures reads { Reads S.Shelf reader.old reader.new result }
{
    cook_bits::laws::register_goes_on();
    let to = to.max(from);
    let mut checksum = Crc32Ebml::new();
    let mut at = from;
    while at < to {
        let next = at + (to - at).min(ROOM);
        reader.show(at, next)?;
        checksum.update(reader.part(at, next));
        at = next;
    }
    Ok(checksum.value())
}

// Whether the bytes behind a checksum, up to an end, don't agree with it.
#[tactic(auto, using(shelf_reader::specs::ReadingLaws::reading_laws, shelf_reader::specs::KeepingLaws::keeping_laws))]
fn disagrees<S: Shelf>(reader: &mut Reader<'_, '_, S>, checksum: Span, end: u64) -> Reading<bool>
    requires ready { IsReady S.Shelf reader.old }
    requires checksum { IsChecksum reader.old.len checksum }
    requires within { end ≤ reader.old.len }
    ensures exact { Answers (known S.Shelf reader.old) (answers (disagrees checksum end)) result }
    ensures reads { Reads S.Shelf reader.old reader.new result }
{
    reader.show(checksum.start, checksum.end)?;
    let said = LittleEndian::read_u32(reader.part(checksum.start, checksum.end));
    let found = checksum_between(reader, checksum.end, end)?;
    Ok(found != said)
}

/// A block of a Cluster that ends there, where its checksum was tested.
#[tactic(auto, using(shelf_reader::specs::ReadingLaws::reading_laws, shelf_reader::specs::KeepingLaws::keeping_laws), unfolding(crate::specs::Clusters::block_tested))]
pub fn test_block<S: Shelf>(
    reader: &mut Reader<'_, '_, S>,
    block: BlockAt,
    checksum: Option<Span>,
    end: u64,
) -> Reading<BlockAt>
    requires ready { IsReady S.Shelf reader.old }
    requires checksum { IfSome checksum (IsChecksum reader.old.len) }
    requires within { end ≤ reader.old.len }
    requires ends { BlockEndsBy reader.old.len block }
    ensures exact { Answers (known S.Shelf reader.old) (block_tested block checksum end) result }
    ensures ends { IfOk result (BlockEndsBy reader.old.len) }
    ensures reads { Reads S.Shelf reader.old reader.new result }
{
    let Some(checksum) = checksum else {
        return Ok(block);
    };
    let damaged = disagrees(reader, checksum, end)?;
    Ok(BlockAt { damaged, ..block })
}

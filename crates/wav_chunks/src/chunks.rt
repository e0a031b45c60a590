// The chunks of a RIFF file (Multimedia Programming Interface and Data Specifications 1.0, Resource Interchange File Format),
// and a walk over them up to the first `data`.
ghost use Rattle.std.specs.Prelude.{◌≡◌, ◌+◌, ◌≤◌, length, IfOk, IfErr};
ghost use Rattle.shelf_reader.specs.Readings.{answers, Answers};
ghost use Rattle.shelf_reader.specs.Seen.{Seen};
ghost use Rattle.wav_chunks.specs.Formed.{IsChunk, IsSeen};
ghost use Rattle.wav_chunks.specs.WaveParts.{kind_of, behind_kind, chunk_of, chunk_in, chunk_at, visit_format, visit_data, visit_chunk, wave_walked};
ghost use Rattle.wav_chunks.specs.Window.{known, IsReady, IsFault, Reads};

use crate::format::read_format;
use crate::parts::{Chunk, ChunkKind, Sound, WaveSeen};
use crate::reader::{Reader, is_same};
use crate::why::{Reading, WavWhy};
use byteorder::{ByteOrder, LittleEndian};
use shelf_core::Shelf;
use shelf_reader::ReadError;

/// The bytes of a chunk's head: its identifier and its size.
const HEAD_LEN: u64 = 8;

/// The bytes of a file before its first chunk: `RIFF`, a size and `WAVE`.
const START: u64 = 12;

#[tactic(auto, unfolding(crate::specs::WaveParts::kind_of))]
fn kind_of(id: &[u8]) -> ChunkKind
    ensures { result ≡ kind_of id.now }
{
    if is_same(id, b"fmt ") {
        return ChunkKind::Format;
    }
    if is_same(id, b"data") {
        return ChunkKind::Data;
    }
    ChunkKind::Other
}

// Where the walk goes on behind a chunk whose content starts at a place, and has so many bytes with its pad byte.
#[tactic(auto, unfolding(crate::specs::WaveParts::behind_kind))]
fn behind(end: u64, start: u64, kind: ChunkKind, padded: u64) -> u64
    requires { start ≤ end }
    ensures exact { result ≡ behind_kind end kind (start + padded) }
    ensures within { result ≤ end }
    ensures on { start ≤ result }
{
    match kind {
        ChunkKind::Data => end,
        ChunkKind::Format | ChunkKind::Other => start + padded.min(end - start),
    }
}

// The chunk of a head at a place of a file that ends at `end`.
#[tactic(auto, unfolding(crate::specs::WaveParts::chunk_of))]
fn chunk_of(end: u64, place: u64, head: &[u8]) -> Chunk
    requires len { length head.now ≡ 8 }
    requires room { place + 8 ≤ end }
    ensures exact { result ≡ chunk_of end place head.now }
    ensures chunk { IsChunk place end result }
{
    let kind = kind_of(&head[..4]);
    let start = place + HEAD_LEN;
    let size = u64::from(LittleEndian::read_u32(&head[4..8]));
    let behind = behind(end, start, kind, size + size % 2);
    Chunk {
        kind,
        start,
        size,
        behind,
    }
}

// The chunk at a place of a file that ends at `end`, read from the file.
#[tactic(auto, using(shelf_reader::specs::ReadingLaws::reading_laws, crate::proofs::WindowLaws::keeping_laws, crate::proofs::ChunkLaws::chunk_laws))]
fn read_head<S: Shelf>(reader: &mut Reader<'_, '_, S>, place: u64, end: u64) -> Reading<Chunk>
    requires ready { IsReady S.Shelf reader.old }
    requires room { place + 8 ≤ end }
    requires within { end ≤ reader.old.len }
    ensures exact { Answers (known S.Shelf reader.old) (answers (chunk_in end place)) result }
    ensures chunk { IfOk result (IsChunk place end) }
    ensures reads { Reads S.Shelf reader.old reader.new result }
{
    let to = place + HEAD_LEN;
    reader.show(place, to)?;
    Ok(chunk_of(end, place, reader.part(place, to)))
}

// The chunk at a place of a file that ends at `end`.
#[tactic(auto, using(shelf_reader::specs::ReadingLaws::reading_laws, crate::proofs::WindowLaws::keeping_laws), unfolding(crate::specs::WaveParts::chunk_at))]
fn read_chunk<S: Shelf>(reader: &mut Reader<'_, '_, S>, place: u64, end: u64) -> Reading<Chunk>
    requires ready { IsReady S.Shelf reader.old }
    requires before { place ≤ end }
    requires within { end ≤ reader.old.len }
    ensures exact { Answers (known S.Shelf reader.old) (chunk_at end place) result }
    ensures chunk { IfOk result (IsChunk place end) }
    ensures reads { Reads S.Shelf reader.old reader.new result }
{
    if end - place < HEAD_LEN {
        return Err(ReadError::Fault(WavWhy::NoData));
    }
    read_head(reader, place, end)
}

// What is known with a `fmt ` chunk more: the first one counts.
#[tactic(auto, using(shelf_reader::specs::ReadingLaws::reading_laws, crate::proofs::WindowLaws::keeping_laws), unfolding(crate::specs::WaveParts::visit_format))]
fn with_format<S: Shelf>(
    seen: WaveSeen,
    reader: &mut Reader<'_, '_, S>,
    chunk: Chunk,
) -> Reading<WaveSeen>
    requires ready { IsReady S.Shelf reader.old }
    requires start { chunk.start ≤ reader.old.len }
    requires seen { IsSeen reader.old.len seen }
    ensures exact { Answers (known S.Shelf reader.old) (visit_format reader.old.len seen.format seen chunk) result }
    ensures seen { IfOk result (IsSeen reader.old.len) }
    ensures reads { Reads S.Shelf reader.old reader.new result }
{
    if seen.format.is_some() {
        return Ok(seen);
    }
    let format = read_format(reader, chunk)?;
    Ok(WaveSeen {
        format: Some(format),
        sound: seen.sound,
    })
}

// What is known with a `data` chunk more, before which a format came.
#[tactic(auto, using(shelf_reader::specs::ReadingLaws::reading_laws), unfolding(crate::specs::WaveParts::visit_data))]
fn with_data(seen: WaveSeen, chunk: Chunk, len: u64) -> Reading<WaveSeen>
    requires start { chunk.start ≤ len }
    requires seen { IsSeen len seen }
    ensures exact { (known : Seen) → Answers known (visit_data seen.format seen chunk) result }
    ensures seen { IfOk result (IsSeen len) }
    ensures fault { IfErr result IsFault }
{
    let Some(format) = seen.format else {
        return Err(ReadError::Fault(WavWhy::NoFormat));
    };
    Ok(WaveSeen {
        format: seen.format,
        sound: Some(Sound {
            format,
            start: chunk.start,
            size: chunk.size,
        }),
    })
}

// What is known with one chunk more.
#[tactic(auto, using(shelf_reader::specs::ReadingLaws::reading_laws, crate::proofs::WindowLaws::keeping_laws), unfolding(crate::specs::WaveParts::visit_kind))]
fn with_chunk<S: Shelf>(
    seen: WaveSeen,
    reader: &mut Reader<'_, '_, S>,
    chunk: Chunk,
) -> Reading<WaveSeen>
    requires ready { IsReady S.Shelf reader.old }
    requires start { chunk.start ≤ reader.old.len }
    requires seen { IsSeen reader.old.len seen }
    ensures exact { Answers (known S.Shelf reader.old) (visit_chunk reader.old.len seen chunk) result }
    ensures seen { IfOk result (IsSeen reader.old.len) }
    ensures reads { Reads S.Shelf reader.old reader.new result }
{
    match chunk.kind {
        ChunkKind::Format => with_format(seen, reader, chunk),
        ChunkKind::Data => with_data(seen, chunk, reader.len()),
        ChunkKind::Other => Ok(seen),
    }
}

/// What the chunks of a file tell, up to the first `data`. Each head is read once, and no content but that of `fmt `.
#[tactic(auto, using(shelf_reader::specs::WalkLaws::walk_laws, crate::proofs::WindowLaws::keeping_laws, crate::proofs::ChunkLaws::riff_laws), unfolding(crate::specs::WaveParts::wave_walked))]
pub fn walk<S: Shelf>(reader: &mut Reader<'_, '_, S>) -> Reading<WaveSeen>
    requires ready { IsReady S.Shelf reader.old }
    requires long { 12 ≤ reader.old.len }
    ensures exact { Answers (known S.Shelf reader.old) (wave_walked reader.old.len) result }
    ensures seen { IfOk result (IsSeen reader.old.len) }
    ensures reads { Reads S.Shelf reader.old reader.new result }
{
    let end = reader.len();
    let mut seen = WaveSeen {
        format: None,
        sound: None,
    };
    let mut at = START;
    while at < end {
        let chunk = read_chunk(reader, at, end)?;
        seen = with_chunk(seen, reader, chunk)?;
        at = chunk.behind;
    }
    Ok(seen)
}

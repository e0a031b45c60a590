// The content of `fmt ` (Multimedia Programming Interface and Data Specifications 1.0, WAVE format chunk), and the rules that
// it has to keep.
ghost use Rattle.std.specs.Prelude.{◌≡◌, ◌+◌, ◌≤◌, IsTrue, length, None, Some, IfOk, OnOk, IfErr};
ghost use Rattle.shelf_reader.specs.Readings.{answers, Answers};
ghost use Rattle.shelf_reader.specs.Seen.{Seen};
ghost use Rattle.wav_chunks.specs.Formed.{IsFormat};
ghost use Rattle.wav_chunks.specs.WaveParts.{has_pcm_subformat, fields_of, fields_in, rules, first_broken, format_by, format_in};
ghost use Rattle.wav_chunks.specs.Samples.{is_depth, IsDepth};
ghost use Rattle.wav_chunks.specs.Window.{known, IsReady, IsFault, Reads};

use crate::parts::{Chunk, Fields, Format};
use crate::reader::{Reader, is_same};
use crate::why::{Reading, WavWhy};
use byteorder::{ByteOrder, LittleEndian};
use shelf_core::Shelf;
use shelf_reader::ReadError;

/// The format tags that are read.
const PCM: u16 = 1;

const EXTENSIBLE: u16 = 0xFFFE;

/// The bytes of a content with the extensible tag, of which the last sixteen are the subformat.
const EXTENSIBLE_LEN: u64 = 40;

/// The bytes of a content without it.
const PLAIN_LEN: u64 = 16;

// Whether the subformat of an extensible content is PCM.
#[tactic(auto, unfolding(crate::specs::WaveParts::has_pcm_subformat))]
fn has_pcm_subformat(content: &[u8]) -> bool
    requires { 40 ≤ length content.now }
    ensures { result ≡ has_pcm_subformat content.now }
{
    is_same(
        &content[24..40],
        &[1, 0, 0, 0, 0, 0, 16, 0, 128, 0, 0, 170, 0, 56, 155, 113],
    )
}

// The fields of a content.
#[tactic(auto, unfolding(crate::specs::WaveParts::fields_of))]
fn fields_of(content: &[u8]) -> Fields
    requires { 16 ≤ length content.now }
    ensures { result ≡ fields_of content.now }
{
    let tag = LittleEndian::read_u16(&content[0..2]);
    let is_whole = content.len() as u64 >= EXTENSIBLE_LEN;
    Fields {
        is_short: tag == EXTENSIBLE && !is_whole,
        is_pcm: tag == PCM || tag == EXTENSIBLE && is_whole && has_pcm_subformat(content),
        channels: LittleEndian::read_u16(&content[2..4]),
        rate: LittleEndian::read_u32(&content[4..8]),
        align: LittleEndian::read_u16(&content[12..14]),
        bits: LittleEndian::read_u16(&content[14..16]),
    }
}

// The rules on the fields, in their order.
fn keeps_rules(fields: &Fields) -> Result<(), WavWhy>
    ensures kept { OnOk result (first_broken (rules fields.now) ≡ None) }
    ensures broken { IfErr result (λ why. first_broken (rules fields.now) ≡ Some why) }
    ensures channels_low { OnOk result (1 ≤ fields.now.channels) }
    ensures channels_high { OnOk result (fields.now.channels ≤ 8) }
    ensures rate_low { OnOk result (1 ≤ fields.now.rate) }
    ensures rate_high { OnOk result (fields.now.rate ≤ 1048575) }
    ensures depth { OnOk result (IsDepth fields.now.bits) }
{
    if fields.is_short {
        return Err(WavWhy::FormatShort);
    }
    if !fields.is_pcm {
        return Err(WavWhy::Tag);
    }
    if fields.channels < 1 || fields.channels > 8 {
        return Err(WavWhy::Channels);
    }
    if fields.rate < 1 || fields.rate > 1_048_575 {
        return Err(WavWhy::Rate);
    }
    if !is_depth(fields.bits) {
        return Err(WavWhy::Bits);
    }
    if u32::from(fields.align) != u32::from(fields.channels) * u32::from(fields.bits) / 8 {
        return Err(WavWhy::Align);
    }
    Ok(())
}

// Whether samples of so many bits are taken.
fn is_depth(bits: u16) -> bool
    ensures exact { result ≡ is_depth bits }
    ensures few { IsTrue result → bits ≤ 24 }
{
    matches!(bits, 8 | 16 | 24)
}

// The format that fields tell.
#[tactic(auto, using(crate::proofs::FormatLaws::format_laws))]
fn format_of(fields: &Fields) -> Reading<Format>
    ensures exact { (known : Seen) → Answers known (format_by (first_broken (rules fields.now)) fields.now) result }
    ensures format { IfOk result IsFormat }
    ensures fault { IfErr result IsFault }
{
    if let Err(why) = keeps_rules(fields) {
        return Err(ReadError::Fault(why));
    }
    Ok(Format {
        channels: fields.channels as u8,
        bits: fields.bits as u8,
        rate: fields.rate,
    })
}

// The fields of a content, read from the file.
#[tactic(auto, using(shelf_reader::specs::ReadingLaws::reading_laws, crate::proofs::WindowLaws::keeping_laws, crate::proofs::FormatLaws::fields_laws))]
fn read_fields<S: Shelf>(reader: &mut Reader<'_, '_, S>, chunk: Chunk) -> Reading<Fields>
    requires ready { IsReady S.Shelf reader.old }
    requires long { 16 ≤ chunk.size }
    requires within { chunk.start + chunk.size ≤ reader.old.len }
    ensures exact { Answers (known S.Shelf reader.old) (answers (fields_in chunk)) result }
    ensures reads { Reads S.Shelf reader.old reader.new result }
{
    let to = chunk.start + chunk.size.min(EXTENSIBLE_LEN);
    reader.show(chunk.start, to)?;
    Ok(fields_of(reader.part(chunk.start, to)))
}

/// The format of a `fmt ` chunk.
#[tactic(auto, using(shelf_reader::specs::ReadingLaws::reading_laws, crate::proofs::WindowLaws::keeping_laws), unfolding(crate::specs::WaveParts::format_in, crate::specs::WaveParts::format_read))]
pub fn read_format<S: Shelf>(reader: &mut Reader<'_, '_, S>, chunk: Chunk) -> Reading<Format>
    requires ready { IsReady S.Shelf reader.old }
    requires start { chunk.start ≤ reader.old.len }
    ensures exact { Answers (known S.Shelf reader.old) (format_in reader.old.len chunk) result }
    ensures format { IfOk result IsFormat }
    ensures reads { Reads S.Shelf reader.old reader.new result }
{
    if chunk.size < PLAIN_LEN || chunk.size > reader.len() - chunk.start {
        return Err(ReadError::Fault(WavWhy::FormatShort));
    }
    let fields = read_fields(reader, chunk)?;
    format_of(&fields)
}

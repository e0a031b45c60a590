// Where the samples of a RIFF WAVE file lie.
ghost use Rattle.std.specs.Prelude.{◌≡◌, ◌≤◌, length, IfOk, IfErr, IfSome};
ghost use Rattle.shelf_core.specs.Reads.{OnlyReads, Has};
ghost use Rattle.shelf_reader.specs.Readings.{answers, Answers};
ghost use Rattle.shelf_reader.specs.Seen.{Seen};
ghost use Rattle.wav_chunks.specs.Formed.{IsSound, IsLayoutIn};
ghost use Rattle.wav_chunks.specs.Found.{FindsOn, RefusesOn, FindStops};
ghost use Rattle.wav_chunks.specs.WaveParts.{is_riff, layout_of, wave_chunks, wave_in};
ghost use Rattle.wav_chunks.specs.Window.{known, IsReady, IsFault, Reads};

use crate::WavLayout;
use crate::chunks::walk;
use crate::parts::Sound;
use crate::reader::{Reader, is_same};
use crate::why::{Reading, WavError, WavWhy};
use shelf_core::Shelf;
use shelf_reader::ReadError;

/// How many bytes are read at once.
const ROOM: usize = 4096;

/// The bytes of `RIFF`, a size and `WAVE`.
const START: u64 = 12;

/// Fewer blocks than these are taken.
const TOO_LONG: u64 = 1 << 36;

// The layout of what was seen.
#[tactic(auto, using(shelf_reader::specs::ReadingLaws::reading_laws, crate::proofs::LayoutLaws::layout_laws), unfolding(crate::specs::WaveParts::layout_of))]
fn layout_of(len: u64, sound: Option<Sound>) -> Reading<WavLayout>
    requires { IfSome sound (IsSound len) }
    ensures exact { (known : Seen) → Answers known (layout_of len sound) result }
    ensures layout { IfOk result (IsLayoutIn len) }
    ensures fault { IfErr result IsFault }
{
    let Some(
        Sound {
            format,
            start,
            size,
        },
    ) = sound
    else {
        return Err(ReadError::Fault(WavWhy::NoData));
    };
    let block = u64::from(format.channels) * (u64::from(format.bits) / 8);
    let blocks = size.min(len - start) / block;
    if blocks >= TOO_LONG {
        return Err(ReadError::Fault(WavWhy::TooLong));
    }
    Ok(WavLayout {
        head_len: start,
        channels: format.channels,
        bits: format.bits,
        rate: format.rate,
        blocks,
    })
}

// Whether a file of 12 bytes and more begins as a wave.
#[tactic(auto, using(shelf_reader::specs::ReadingLaws::reading_laws, crate::proofs::WindowLaws::keeping_laws, crate::proofs::LayoutLaws::riff_laws))]
fn is_riff<S: Shelf>(reader: &mut Reader<'_, '_, S>) -> Reading<bool>
    requires ready { IsReady S.Shelf reader.old }
    requires long { 12 ≤ reader.old.len }
    ensures exact { Answers (known S.Shelf reader.old) (answers is_riff) result }
    ensures reads { Reads S.Shelf reader.old reader.new result }
{
    reader.show(0, START)?;
    Ok(is_same(reader.part(0, 4), b"RIFF") && is_same(reader.part(8, START), b"WAVE"))
}

// The layout that the chunks of a file tell.
#[tactic(auto, using(shelf_reader::specs::ReadingLaws::reading_laws, crate::proofs::WindowLaws::keeping_laws), unfolding(crate::specs::WaveParts::wave_chunks))]
fn find_chunks<S: Shelf>(reader: &mut Reader<'_, '_, S>) -> Reading<WavLayout>
    requires ready { IsReady S.Shelf reader.old }
    requires long { 12 ≤ reader.old.len }
    ensures exact { Answers (known S.Shelf reader.old) (wave_chunks reader.old.len) result }
    ensures layout { IfOk result (IsLayoutIn reader.old.len) }
    ensures reads { Reads S.Shelf reader.old reader.new result }
{
    let seen = walk(reader)?;
    layout_of(reader.len(), seen.sound)
}

// The layout, as a reading of what is seen of the file.
#[tactic(auto, using(shelf_reader::specs::ReadingLaws::reading_laws, crate::proofs::WindowLaws::keeping_laws), unfolding(crate::specs::WaveParts::wave_in))]
fn read_wave<S: Shelf>(reader: &mut Reader<'_, '_, S>) -> Reading<WavLayout>
    requires ready { IsReady S.Shelf reader.old }
    ensures exact { Answers (known S.Shelf reader.old) (wave_in reader.old.len) result }
    ensures layout { IfOk result (IsLayoutIn reader.old.len) }
    ensures reads { Reads S.Shelf reader.old reader.new result }
{
    if reader.len() < START {
        return Err(ReadError::Fault(WavWhy::Short));
    }
    if !is_riff(reader)? {
        return Err(ReadError::Fault(WavWhy::Magic));
    }
    find_chunks(reader)
}

// The layout, read through a window of 40 bytes and more.
fn find_through<S: Shelf>(
    shelf: &mut S,
    name: &str,
    len: u64,
    window: &mut [u8],
) -> Result<WavLayout, WavError>
    requires there { Has S.Shelf shelf.old name.now }
    requires room { 40 ≤ length window.old }
    ensures exact { IfOk result (FindsOn S.Shelf shelf.old name.now len) }
    ensures fault { IfErr result (RefusesOn S.Shelf shelf.old name.now len) }
    ensures cause { IfErr result (FindStops S.Shelf len shelf.old shelf.new) }
    ensures layout { IfOk result (IsLayoutIn len) }
    ensures kept { OnlyReads S.Shelf shelf.old shelf.new }
{
    let mut reader = Reader::new(shelf, name, len, window);
    Ok(read_wave(&mut reader)?)
}

/// Where the samples of a RIFF WAVE file of `len` bytes lie, or the first rule of [`WavWhy`] that the file breaks.
///
/// Where the shelf tells its files and `len` is the file's length, the answer is the definition's. A layout keeps the limits,
/// and its blocks end inside `len`, on every shelf: no size that the file says is believed. It takes no memory.
pub fn find<S: Shelf>(shelf: &mut S, name: &str, len: u64) -> Result<WavLayout, WavError>
    requires { Has S.Shelf shelf.old name.now }
    ensures exact { IfOk result (FindsOn S.Shelf shelf.old name.now len) }
    ensures fault { IfErr result (RefusesOn S.Shelf shelf.old name.now len) }
    ensures cause { IfErr result (FindStops S.Shelf len shelf.old shelf.new) }
    ensures layout { IfOk result (IsLayoutIn len) }
    ensures kept { OnlyReads S.Shelf shelf.old shelf.new }
{
    let mut window = [0; ROOM];
    find_through(shelf, name, len, &mut window)
}

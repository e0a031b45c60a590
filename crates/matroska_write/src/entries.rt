ghost use Rattle.std.specs.Prelude.{◌≡◌, ◌+◌, ◌<◌, ◌≤◌, ◌^◌, ◌++◌, length, All, IfOk, OnOk};
ghost use Rattle.std.specs.List.{sum_by};
ghost use Rattle.ebml_core.specs.Element.{element};
ghost use Rattle.matroska_names.specs.declared.ids.TheConstants.{CODEC_PRIVATE};
ghost use Rattle.flac_frame.specs.StreamInfo.{IsWritable};
ghost use Rattle.matroska_write.specs.Tracks.{IsSound, IsTrack, type_of, codec_of, flac_private, private_of, private_len, video_content, audio_content, settings_of, entry_content, entries_from, tracks_of};

use crate::TrackOut;
use cook_bits::{Bytes, NoMemory};
use ebml_core::{put_bytes, put_uint, rate_bytes};
use flac_frame::StreamInfo;
use matroska_names::ids::{
    AUDIO, BIT_DEPTH, CHANNELS, CODEC_ID, CODEC_PRIVATE, DEFAULT_DURATION, FLAG_LACING,
    PIXEL_HEIGHT, PIXEL_WIDTH, SAMPLING_FREQUENCY, TRACK_ENTRY, TRACK_NUMBER, TRACK_TYPE,
    TRACK_UID, TRACKS, VIDEO,
};
use matroska_names::texts::{FFV1_CODEC, FLAC_CODEC};
use std::alloc::Global;

/// What a FLAC stream begins with before its STREAMINFO (RFC 9639, section 8): `fLaC`, and the head of the last block of metadata,
/// which has the kind 0 and 34 bytes.
const FLAC_MARK: [u8; 8] = [b'f', b'L', b'a', b'C', 0x80, 0, 0, 34];

/// A second in nanoseconds.
const SECOND: u32 = 1_000_000_000;

// The TrackType of a track.
fn type_of(track: &TrackOut) -> u64
    ensures { result ≡ type_of track.now }
{
    match track {
        TrackOut::Video { .. } => 1,
        TrackOut::Audio { .. } => 2,
    }
}

// The CodecID of a track.
fn codec_of(track: &TrackOut) -> &'static [u8]
    ensures { result.now ≡ codec_of track.now }
{
    match track {
        TrackOut::Video { .. } => FFV1_CODEC.as_bytes(),
        TrackOut::Audio { .. } => FLAC_CODEC.as_bytes(),
    }
}

// The private data of a sound.
fn flac_private(info: &StreamInfo) -> [u8; 42]
    requires { IsWritable info.now }
    ensures { result ≡ flac_private info.now }
{
    let mut parameters = [0; 34];
    info.write(&mut parameters);
    let mut private = [0; 42];
    private[..8].copy_from_slice(&FLAC_MARK);
    private[8..].copy_from_slice(&parameters);
    private
}

// Adds a track's CodecPrivate.
#[tactic(auto, unfolding(crate::specs::Tracks::private_of))]
fn put_private(out: &mut Bytes, track: &TrackOut) -> Result<(), NoMemory>
    requires track { IsTrack track.now }
    requires short { private_len track.now < 2 ^ 54 }
    ensures { OnOk result (out.new ≡ out.old ++ element CODEC_PRIVATE (private_of track.now)) }
{
    match track {
        TrackOut::Video { private, .. } => put_bytes(out, CODEC_PRIVATE, private.as_slice()),
        TrackOut::Audio { info } => put_bytes(out, CODEC_PRIVATE, &flac_private(info)),
    }
}

// The content of Video.
#[tactic(auto, unfolding(crate::specs::Tracks::video_content))]
fn video_content(alloc: Global, width: u32, height: u32) -> Result<Bytes, NoMemory>
    ensures { IfOk result (λ content. content ≡ video_content width height) }
{
    let mut out = Bytes::new(alloc);
    put_uint(&mut out, PIXEL_WIDTH, u64::from(width))?;
    put_uint(&mut out, PIXEL_HEIGHT, u64::from(height))?;
    Ok(out)
}

// The content of Audio.
#[tactic(auto, unfolding(crate::specs::Tracks::audio_content))]
fn audio_content(alloc: Global, info: &StreamInfo) -> Result<Bytes, NoMemory>
    requires { 1 ≤ info.now.rate }
    ensures { IfOk result (λ content. content ≡ audio_content info.now) }
{
    let mut out = Bytes::new(alloc);
    put_bytes(&mut out, SAMPLING_FREQUENCY, &rate_bytes(info.rate))?;
    put_uint(&mut out, CHANNELS, u64::from(info.channels))?;
    put_uint(&mut out, BIT_DEPTH, u64::from(info.bits))?;
    Ok(out)
}

// Adds what a TrackEntry ends with.
#[tactic(auto, using(crate::proofs::TrackLaws::track_laws), unfolding(crate::specs::Tracks::settings_of))]
fn put_settings(alloc: Global, out: &mut Bytes, track: &TrackOut) -> Result<(), NoMemory>
    requires { IsTrack track.now }
    ensures { OnOk result (out.new ≡ out.old ++ settings_of track.now) }
{
    match track {
        TrackOut::Video {
            rate,
            width,
            height,
            ..
        } => {
            put_uint(out, DEFAULT_DURATION, u64::from(SECOND / rate))?;
            let content = video_content(alloc, *width, *height)?;
            put_bytes(out, VIDEO, content.as_slice())
        }
        TrackOut::Audio { info } => {
            let content = audio_content(alloc, info)?;
            put_bytes(out, AUDIO, content.as_slice())
        }
    }
}

// The content of a TrackEntry with its number.
#[tactic(auto, unfolding(crate::specs::Tracks::entry_content))]
fn entry_content(alloc: Global, number: u64, track: &TrackOut) -> Result<Bytes, NoMemory>
    requires track { IsTrack track.now }
    requires short { private_len track.now < 2 ^ 54 }
    ensures { IfOk result (λ content. content ≡ entry_content number track.now) }
{
    let mut out = Bytes::new(alloc);
    put_uint(&mut out, TRACK_NUMBER, number)?;
    put_uint(&mut out, TRACK_UID, number)?;
    put_uint(&mut out, TRACK_TYPE, type_of(track))?;
    put_uint(&mut out, FLAG_LACING, 0)?;
    put_bytes(&mut out, CODEC_ID, codec_of(track))?;
    put_private(&mut out, track)?;
    put_settings(alloc, &mut out, track)?;
    Ok(out)
}

// The TrackEntries, numbered from 1.
fn numbered_entries(alloc: Global, entries: &[TrackOut]) -> Result<Bytes, NoMemory>
    requires few { length entries.now ≤ 126 }
    requires tracks { All IsTrack entries.now }
    requires short { sum_by private_len entries.now < 2 ^ 54 }
    ensures { IfOk result (λ content. content ≡ entries_from 1 entries.now) }
{
    let mut out = Bytes::new(alloc);
    let mut number = 0_u64;
    for track in entries {
        number += 1;
        let content = entry_content(alloc, number, track)?;
        put_bytes(&mut out, TRACK_ENTRY, content.as_slice())?;
    }
    Ok(out)
}

/// The Tracks (RFC 9559, section 5.1.4), numbered from 1; no bytes where there are none.
#[tactic(auto, unfolding(crate::specs::Tracks::tracks_of))]
pub fn tracks(alloc: Global, entries: &[TrackOut]) -> Result<Bytes, NoMemory>
    requires few { length entries.now ≤ 126 }
    requires tracks { All IsTrack entries.now }
    requires short { sum_by private_len entries.now < 2 ^ 54 }
    ensures { IfOk result (λ tracks. tracks ≡ tracks_of entries.now) }
{
    let mut out = Bytes::new(alloc);
    if entries.is_empty() {
        return Ok(out);
    }
    let content = numbered_entries(alloc, entries)?;
    put_bytes(&mut out, TRACKS, content.as_slice())?;
    Ok(out)
}

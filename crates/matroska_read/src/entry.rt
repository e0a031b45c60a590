ghost use Rattle.std.specs.Prelude.{◌≡◌, ℕ, IfOk, IfSome};
ghost use Rattle.shelf_reader.specs.Keeping.{known, IsReady, Reads};
ghost use Rattle.shelf_reader.specs.Readings.{Answers};
ghost use Rattle.matroska_read.specs.Inside.{IsSpan, KeepsInside, EntryKeeps};
ghost use Rattle.matroska_read.specs.Tracks.{first_number, first_video, width_of, height_of, codec_read, private_read, track_read, track_of, entry_read};
ghost use Rattle.matroska_read.specs.Walk.{span_of, first_of};

use crate::attached::first_of;
use crate::element::Ebml;
use crate::error::{Reading, encoded, shape, track_unknown};
use crate::numbers::read_number;
use crate::parts::{Element, EntrySeen, Span, VideoSeen};
use crate::tracks::{Codec, Track, Tracks};
use cook_bits::Bytes;
use matroska_names::ids::{
    CODEC_ID, CODEC_PRIVATE, CONTENT_ENCODINGS, PIXEL_HEIGHT, PIXEL_WIDTH, TRACK_NUMBER, VIDEO,
};
use matroska_names::texts::{FFV1_CODEC, FLAC_CODEC};
use shelf_core::Shelf;
use shelf_reader::{Children, Reader, walk};

// The children of a TrackEntry that are read (RFC 9559, section 5.1.4.1), and those of its Video.

#[tactic(auto, using(shelf_reader::specs::ReadingLaws::reading_laws, shelf_reader::specs::KeepingLaws::keeping_laws), unfolding(crate::specs::Tracks::visit_video))]
impl Children<Ebml> for VideoSeen {
    ghost use Rattle.matroska_read.specs.Tracks.{visit_video};

    ghost visit = { visit_video };

    ghost Fits = { λ len seen. Unit {0} };

    fn with_child<S: Shelf>(
        self,
        reader: &mut Reader<'_, '_, S>,
        child: Element,
    ) -> Reading<VideoSeen> {
        match child.id {
            PIXEL_WIDTH => {
                let width = read_number(reader, child)?;
                Ok(VideoSeen {
                    width: first_number(self.width, width),
                    height: self.height,
                })
            }
            PIXEL_HEIGHT => {
                let height = read_number(reader, child)?;
                Ok(VideoSeen {
                    width: self.width,
                    height: first_number(self.height, height),
                })
            }
            _ => Ok(self),
        }
    }
}

// Of repeated numbers the first counts.
fn first_number(first: Option<u64>, number: u64) -> Option<u64>
    ensures { result ≡ first_number first number }
{
    match first {
        Some(first) => Some(first),
        None => Some(number),
    }
}

// Of repeated Videos the first counts.
fn first_video(first: Option<VideoSeen>, video: VideoSeen) -> Option<VideoSeen>
    ensures { result ≡ first_video first video }
{
    match first {
        Some(first) => Some(first),
        None => Some(video),
    }
}

#[tactic(auto, using(shelf_reader::specs::ReadingLaws::reading_laws, shelf_reader::specs::KeepingLaws::keeping_laws), unfolding(crate::specs::Tracks::visit_entry))]
impl Children<Ebml> for EntrySeen {
    ghost use Rattle.matroska_read.specs.Tracks.{visit_entry};
    ghost use Rattle.matroska_read.specs.Inside.{EntryKeeps};

    ghost visit = { visit_entry };

    ghost Fits = { EntryKeeps };

    fn with_child<S: Shelf>(
        self,
        reader: &mut Reader<'_, '_, S>,
        child: Element,
    ) -> Reading<EntrySeen> {
        let EntrySeen {
            number,
            codec,
            private,
            video,
            encoded,
        } = self;
        match child.id {
            TRACK_NUMBER => {
                let said = read_number(reader, child)?;
                Ok(EntrySeen {
                    number: first_number(number, said),
                    codec,
                    private,
                    video,
                    encoded,
                })
            }
            CODEC_ID => Ok(EntrySeen {
                number,
                codec: first_of(codec, child),
                private,
                video,
                encoded,
            }),
            CODEC_PRIVATE => Ok(EntrySeen {
                number,
                codec,
                private: first_of(private, child),
                video,
                encoded,
            }),
            CONTENT_ENCODINGS => Ok(EntrySeen {
                number,
                codec,
                private,
                video,
                encoded: true,
            }),
            VIDEO => {
                let unseen = VideoSeen {
                    width: None,
                    height: None,
                };
                let sizes = walk::<S, Ebml, VideoSeen>(reader, unseen, child.start, child.end)?;
                Ok(EntrySeen {
                    number,
                    codec,
                    private,
                    video: first_video(video, sizes),
                    encoded,
                })
            }
            _ => Ok(self),
        }
    }
}

// The codec of a track, by its CodecID.
#[tactic(auto, using(shelf_reader::specs::ReadingLaws::reading_laws, shelf_reader::specs::KeepingLaws::keeping_laws), unfolding(crate::specs::Tracks::codec_read))]
fn read_codec<S: Shelf>(reader: &mut Reader<'_, '_, S>, number: u64, id: Span) -> Reading<Codec>
    requires ready { IsReady S.Shelf reader.old }
    requires id { IsSpan reader.old.len id }
    ensures exact { Answers (known S.Shelf reader.old) (codec_read number id) result }
    ensures reads { Reads S.Shelf reader.old reader.new result }
{
    if reader.is_text(id.start, id.end, FFV1_CODEC.as_bytes())? {
        return Ok(Codec::Ffv1);
    }
    if reader.is_text(id.start, id.end, FLAC_CODEC.as_bytes())? {
        return Ok(Codec::Flac);
    }
    Err(track_unknown(number))
}

// The bytes of a CodecPrivate; one that isn't there counts as empty.
#[tactic(auto, using(shelf_reader::specs::ReadingLaws::reading_laws, shelf_reader::specs::KeepingLaws::keeping_laws), unfolding(crate::specs::Tracks::private_read))]
fn read_private<S: Shelf>(reader: &mut Reader<'_, '_, S>, private: Option<Span>) -> Reading<Bytes>
    requires ready { IsReady S.Shelf reader.old }
    requires private { IfSome private (IsSpan reader.old.len) }
    ensures exact { Answers (known S.Shelf reader.old) (private_read private) result }
    ensures reads { Reads S.Shelf reader.old reader.new result }
{
    match private {
        Some(span) => reader.copy(span.start, span.end),
        None => Ok(Bytes::new(reader.alloc())),
    }
}

// The width of a Video; one that isn't there counts as 0.
fn width_of(video: Option<VideoSeen>) -> u64
    ensures { result ≡ width_of video }
{
    match video {
        Some(video) => video.width.unwrap_or(0),
        None => 0,
    }
}

// The height of a Video; one that isn't there counts as 0.
fn height_of(video: Option<VideoSeen>) -> u64
    ensures { result ≡ height_of video }
{
    match video {
        Some(video) => video.height.unwrap_or(0),
        None => 0,
    }
}

// The track of a TrackEntry with this number and this CodecID.
#[tactic(auto, using(shelf_reader::specs::ReadingLaws::reading_laws, shelf_reader::specs::KeepingLaws::keeping_laws), unfolding(crate::specs::Tracks::track_read))]
fn read_numbered<S: Shelf>(
    reader: &mut Reader<'_, '_, S>,
    seen: EntrySeen,
    number: u64,
    id: Span,
) -> Reading<Track>
    requires ready { IsReady S.Shelf reader.old }
    requires id { IsSpan reader.old.len id }
    requires private { IfSome seen.private (IsSpan reader.old.len) }
    ensures exact { Answers (known S.Shelf reader.old) (track_read seen number id) result }
    ensures reads { Reads S.Shelf reader.old reader.new result }
{
    if seen.encoded {
        return Err(encoded(number));
    }
    let codec = read_codec(reader, number, id)?;
    let private = read_private(reader, seen.private)?;
    Ok(Track {
        number,
        codec,
        private,
        width: width_of(seen.video),
        height: height_of(seen.video),
    })
}

// The track of a TrackEntry at a place, of which these children were seen, behind these tracks.
#[tactic(auto, using(shelf_reader::specs::ReadingLaws::reading_laws, shelf_reader::specs::KeepingLaws::keeping_laws), unfolding(crate::specs::Tracks::track_of))]
fn read_seen<S: Shelf>(
    reader: &mut Reader<'_, '_, S>,
    tracks: &Tracks,
    place: u64,
    seen: EntrySeen,
) -> Reading<Track>
    requires ready { IsReady S.Shelf reader.old }
    requires keeps { EntryKeeps reader.old.len seen }
    ensures exact { Answers (known S.Shelf reader.old) (track_of tracks.now place seen seen.number seen.codec) result }
    ensures reads { Reads S.Shelf reader.old reader.new result }
{
    match (seen.number, seen.codec) {
        (Some(number), Some(id)) => {
            if number == 0 || tracks.has_number(number) {
                return Err(shape(place));
            }
            read_numbered(reader, seen, number, id)
        }
        _ => Err(shape(place)),
    }
}

/// The track of a TrackEntry behind these tracks.
#[tactic(auto, using(shelf_reader::specs::ReadingLaws::reading_laws, shelf_reader::specs::KeepingLaws::keeping_laws, crate::proofs::FileLaws::field_laws), unfolding(crate::specs::Tracks::entry_read))]
pub fn read_entry<S: Shelf>(
    reader: &mut Reader<'_, '_, S>,
    tracks: &Tracks,
    element: Element,
) -> Reading<Track>
    requires ready { IsReady S.Shelf reader.old }
    requires inside { KeepsInside reader.old.len element }
    ensures exact { Answers (known S.Shelf reader.old) (entry_read tracks.now element) result }
    ensures reads { Reads S.Shelf reader.old reader.new result }
{
    let unseen = EntrySeen {
        number: None,
        codec: None,
        private: None,
        video: None,
        encoded: false,
    };
    let seen = walk::<S, Ebml, EntrySeen>(reader, unseen, element.start, element.end)?;
    read_seen(reader, tracks, element.place, seen)
}

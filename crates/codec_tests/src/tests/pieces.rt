ghost use Rattle.std.specs.Prelude.{◌≡◌};
ghost use Rattle.matroska_write.specs.Tracks.{IsTrack, private_len};

use cook_bits::Bytes;
use flac_frame::StreamInfo;
use matroska_write::{TrackOut, cluster, tracks};
use std::alloc::Global;
use std::test::Fail;

// A film of 24 frames a second, of 2 by 2 pixels, with an empty record.
#[tactic(auto, unfolding(matroska_write::specs::Tracks::private_of))]
fn film(alloc: Global) -> TrackOut
    ensures { IsTrack result × (private_len result ≡ 0) }
{
    TrackOut::Video {
        private: Bytes::new(alloc),
        rate: 24,
        width: 2,
        height: 2,
    }
}

// A sound of two channels of 16 bits at 48,000 samples a second.
#[tactic(auto, unfolding(matroska_write::specs::Tracks::private_of))]
fn sound() -> TrackOut
    ensures { IsTrack result × (private_len result ≡ 42) }
{
    let info = StreamInfo {
        min_block: 4096,
        max_block: 4096,
        min_frame: 0,
        max_frame: 0,
        rate: 48_000,
        channels: 2,
        bits: 16,
        total: 1,
        md5: [0; 16],
    };
    let mut private = [0; 34];
    info.write(&mut private);
    TrackOut::Audio { info }
}

#[rattlefmt::skip]
const TRACKS: [u8; 135] = [
    0x16, 0x54, 0xAE, 0x6B, 0x40, 0x81,
    0xAE, 0xA8, 0xD7, 0x81, 1, 0x73, 0xC5, 0x81, 1, 0x83, 0x81, 1, 0x9C, 0x81, 0,
    0x86, 0x86, b'V', b'_', b'F', b'F', b'V', b'1', 0x63, 0xA2, 0x80,
    0x23, 0xE3, 0x83, 0x84, 0x02, 0x7B, 0xC8, 0x6A, 0xE0, 0x86, 0xB0, 0x81, 2, 0xBA, 0x81, 2,
    0xAE, 0xD5, 0xD7, 0x81, 2, 0x73, 0xC5, 0x81, 2, 0x83, 0x81, 2, 0x9C, 0x81, 0,
    0x86, 0x86, b'A', b'_', b'F', b'L', b'A', b'C', 0x63, 0xA2, 0xAA, b'f', b'L', b'a', b'C', 0x80, 0, 0, 34,
    16, 0, 16, 0, 0, 0, 0, 0, 0, 0, 0x0B, 0xB8, 0x02, 0xF0, 0, 0, 0, 1, 0, 0, 0, 0, 0, 0, 0, 0, 0, 0, 0, 0, 0, 0, 0, 0,
    0xE1, 0x91, 0xB5, 0x88, 0x40, 0xE7, 0x70, 0, 0, 0, 0, 0, 0x9F, 0x81, 2, 0x62, 0x64, 0x81, 16,
];

#[test]
fn a_film_and_a_sound_are_listed(rt: HostRuntime) -> Result<(), Fail> {
    let entries = [film(rt.alloc()), sound()];
    let listed = tracks(rt.alloc(), &entries)?;
    assert_eq!(rt; listed.as_slice(), TRACKS.as_slice());
    assert_eq!(rt; tracks(rt.alloc(), &[])?.as_slice(), [].as_slice());
    Ok(())
}

#[rattlefmt::skip]
const FRAME: [u8; 25] = [
    0x1F, 0x43, 0xB6, 0x75, 0x94, 0xBF, 0x84, 0xD8, 0x7A, 0xEF, 0xA8, 0xE7, 0x81, 0,
    0xA3, 0x89, 0x81, 0, 0, 0x80, b'f', b'r', b'a', b'm', b'e',
];

#[rattlefmt::skip]
const NOTHING: [u8; 20] = [
    0x1F, 0x43, 0xB6, 0x75, 0x8F, 0xBF, 0x84, 0xEB, 0x26, 0x59, 0x1E, 0xE7, 0x81, 41, 0xA3, 0x84, 0x81, 0, 0, 0x80,
];

#[test]
fn a_block_is_a_cluster_with_its_sum(rt: HostRuntime) -> Result<(), Fail> {
    let frame = cluster(rt.alloc(), 1, 0, b"frame")?;
    assert_eq!(rt; frame.as_slice(), FRAME.as_slice());
    let nothing = cluster(rt.alloc(), 1, 41, &[])?;
    assert_eq!(rt; nothing.as_slice(), NOTHING.as_slice());
    Ok(())
}

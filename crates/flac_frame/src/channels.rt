// The subframes of a frame: the channels as they are stored, one after the other.

ghost use Rattle.std.specs.Prelude.{◌≡◌, ◌+◌, ◌*◌, ◌^◌, ◌<◌, ◌≤◌, length};
ghost use Rattle.flac_frame.specs.Reading.{Reads};
ghost use Rattle.flac_frame.specs.Samples.{stretches};
ghost use Rattle.flac_frame.specs.Frame as whole;

use crate::FlacWhy;
use crate::subframe::subframe;
use cook_bits::BitReader;

pub(crate) fn depth_of(code: u32, bits: u32, k: usize) -> u32
    requires { bits ≤ 24 }
    ensures depth { result ≡ whole.depth_of code bits k }
    ensures low { bits ≤ result }
    ensures high { result ≤ bits + 1 }
{
    let difference = match code {
        8 | 10 => 1,
        9 => 0,
        _ => return bits,
    };
    if k == difference { bits + 1 } else { bits }
}

// The subframes of so many channels, each with its own stretch.
pub(crate) fn subframes(
    reader: &mut BitReader<'_>,
    code: u32,
    bits: u32,
    size: usize,
    room: usize,
    count: usize,
    samples: &mut [i32],
) -> Result<(), FlacWhy>
    requires few { size < 2 ^ 32 }
    requires low { 1 ≤ bits }
    requires high { bits ≤ 24 }
    requires within { size ≤ room }
    requires room { length samples.old ≡ count * room }
    ensures { Reads (λ _. stretches room size samples.new count) result reader.new
        (whole.subframes_at code bits size 0 count reader.old) }
{
    for k in 0..count {
        let channel = &mut samples[k * room..k * room + size];
        subframe(reader, depth_of(code, bits, k), channel)?;
    }
    Ok(())
}

// One channel of interleaved blocks, both ways.

ghost use Rattle.std.specs.Prelude.{◌≡◌, ◌+◌, ◌*◌, ◌/◌, ◌<◌, ◌≤◌, length, take, drop};
ghost use Rattle.wav_chunks.specs.Samples.{IsDepth, AreInside, sample_of, of_stretches, block_len, blocks_of, channel_of, put_in_each, with_channel};

use crate::WavLayout;
use crate::coding::{Bits8, Bits16, Bits24, Coding};

// The sample at a place of each block.
fn take_channel<C: Coding>(place: usize, size: usize, bytes: &[u8], out: &mut [i32])
    requires within { place + C.bits / 8 ≤ size }
    requires blocks { length bytes.now ≡ length out.old * size }
    ensures samples { out.new ≡ of_stretches (λ block. sample_of C.bits (take (C.bits / 8) (drop place block))) size (length out.old) bytes.now }
    ensures inside { AreInside C.bits out.new }
{
    let width = C::width();
    for i in 0..out.len() {
        let at = i * size + place;
        out[i] = C::read(&bytes[at..at + width]);
    }
}

// Puts a sample at a place of each block.
fn put_channel<C: Coding>(place: usize, size: usize, samples: &[i32], bytes: &mut [u8])
    requires within { place + C.bits / 8 ≤ size }
    requires blocks { length bytes.old ≡ length samples.now * size }
    requires inside { AreInside C.bits samples.now }
    ensures { bytes.new ≡ put_in_each C.bits place size (length samples.now) samples.now bytes.old }
{
    let width = C::width();
    for i in 0..samples.len() {
        let at = i * size + place;
        C::write(samples[i], &mut bytes[at..at + width]);
    }
}

/// Takes the samples of one channel, counted from 0, out of whole blocks. They are inside the layout's bits. It takes no
/// memory.
pub fn to_samples(layout: &WavLayout, bytes: &[u8], channel: u8, out: &mut [i32])
    requires depth { IsDepth layout.now.bits }
    requires some { 1 ≤ layout.now.channels }
    requires few { layout.now.channels ≤ 8 }
    requires channel { channel < layout.now.channels }
    requires blocks { length bytes.now ≡ length out.old * block_len layout.now.bits layout.now.channels }
    ensures samples { out.new ≡ channel_of channel (blocks_of layout.now.bits layout.now.channels (length out.old) bytes.now) }
    ensures inside { AreInside layout.now.bits out.new }
{
    let width = layout.bits as usize / 8;
    let place = channel as usize * width;
    let size = layout.channels as usize * width;
    match layout.bits {
        8 => take_channel::<Bits8>(place, size, bytes, out),
        16 => take_channel::<Bits16>(place, size, bytes, out),
        _ => take_channel::<Bits24>(place, size, bytes, out),
    }
}

/// Puts the samples of one channel, counted from 0, into whole blocks. The bytes of the other channels stay. It takes no
/// memory.
pub fn to_bytes(layout: &WavLayout, channel: u8, samples: &[i32], bytes: &mut [u8])
    requires depth { IsDepth layout.now.bits }
    requires some { 1 ≤ layout.now.channels }
    requires few { layout.now.channels ≤ 8 }
    requires channel { channel < layout.now.channels }
    requires blocks { length bytes.old ≡ length samples.now * block_len layout.now.bits layout.now.channels }
    requires inside { AreInside layout.now.bits samples.now }
    ensures { bytes.new ≡ with_channel layout.now.bits layout.now.channels channel samples.now bytes.old }
{
    let width = layout.bits as usize / 8;
    let place = channel as usize * width;
    let size = layout.channels as usize * width;
    match layout.bits {
        8 => put_channel::<Bits8>(place, size, samples, bytes),
        16 => put_channel::<Bits16>(place, size, samples, bytes),
        _ => put_channel::<Bits24>(place, size, samples, bytes),
    }
}

// A sample as bytes, by bit depth.

ghost use Rattle.std.specs.Prelude.{◌≡◌, ℕ, ◌*◌, ◌/◌, ◌<◌, ◌≤◌, pos, neg_ℤ, ◌+ℤ◌, ◌≤ℤ◌, ◌<ℤ◌, length};
ghost use Rattle.wav_chunks.specs.Samples.{IsInside, sample_of, signed_of, unsigned_of, sample_bytes};

use byteorder::{ByteOrder, LittleEndian};

/// How samples of a depth are kept.
pub trait Coding {
    // The bits of a sample.
    ghost bits: { ℕ };

    fn width() -> usize
        ensures { result ≡ bits / 8 };

    fn read(bytes: &[u8]) -> i32
        requires { length bytes.now ≡ bits / 8 }
        ensures sample { result ≡ sample_of bits bytes.now }
        ensures inside { IsInside bits result };

    fn write(sample: i32, bytes: &mut [u8])
        requires inside { IsInside bits sample }
        requires len { length bytes.old ≡ bits / 8 }
        ensures { bytes.new ≡ sample_bytes bits sample };
}

/// A byte, to which half of the range is added.
pub struct Bits8;

/// Two bytes in two's complement.
pub struct Bits16;

/// Three bytes in two's complement.
pub struct Bits24;

#[tactic(auto, unfolding(crate::specs::Samples::sample_of, crate::specs::Samples::sample_bytes))]
impl Coding for Bits8 {
    ghost bits = { 8 };

    fn width() -> usize {
        1
    }

    fn read(bytes: &[u8]) -> i32 {
        i32::from(bytes[0]) - 128
    }

    fn write(sample: i32, bytes: &mut [u8]) {
        bytes[0] = raised(sample);
    }
}

#[tactic(auto, unfolding(crate::specs::Samples::sample_of, crate::specs::Samples::sample_bytes))]
impl Coding for Bits16 {
    ghost bits = { 16 };

    fn width() -> usize {
        2
    }

    fn read(bytes: &[u8]) -> i32 {
        signed(u32::from(LittleEndian::read_u16(bytes)), 0x8000)
    }

    fn write(sample: i32, bytes: &mut [u8]) {
        LittleEndian::write_u16(bytes, unsigned(sample, 0x8000) as u16);
    }
}

#[tactic(auto, unfolding(crate::specs::Samples::sample_of, crate::specs::Samples::sample_bytes))]
impl Coding for Bits24 {
    ghost bits = { 24 };

    fn width() -> usize {
        3
    }

    fn read(bytes: &[u8]) -> i32 {
        signed(LittleEndian::read_u24(bytes), 0x80_0000)
    }

    fn write(sample: i32, bytes: &mut [u8]) {
        LittleEndian::write_u24(bytes, unsigned(sample, 0x80_0000));
    }
}

// A sample of 8 bits with half of the range added.
fn raised(sample: i32) -> u8
    requires { IsInside 8 sample }
    ensures { pos result ≡ sample +ℤ pos 128 }
{
    (sample + 128) as u8
}

// The number that stands for another in two's complement, with half of as many numbers as the bits have.
fn signed(kept: u32, half: u32) -> i32
    requires half { half ≤ 8388608 }
    requires fits { kept < 2 * half }
    ensures value { result ≡ signed_of kept half }
    ensures low { neg_ℤ (pos half) ≤ℤ result }
    ensures high { result <ℤ pos half }
{
    if kept < half {
        kept as i32
    } else {
        kept as i32 - 2 * half as i32
    }
}

// The number that stands for a sample in two's complement.
fn unsigned(sample: i32, half: u32) -> u32
    requires half { half ≤ 8388608 }
    requires low { neg_ℤ (pos half) ≤ℤ sample }
    requires high { sample <ℤ pos half }
    ensures value { result ≡ unsigned_of sample half }
    ensures fits { result < 2 * half }
{
    if sample < 0 {
        (sample + 2 * half as i32) as u32
    } else {
        sample as u32
    }
}

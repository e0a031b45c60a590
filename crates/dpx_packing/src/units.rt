// The units of a line, by bit depth (SMPTE 268M, image data, packing).

ghost use Rattle.dpx_packing.specs.Units.{unit8, unit10, unit12, unit16, FitUnit};

use crate::blocks::{Block, Sizes};
use byteorder::ByteOrder;
use std::marker::PhantomData;

/// A sample of 8 bits: a byte.
#[derive(Clone, Copy)]
pub struct Unit8;

/// Three samples of 10 bits and a pad of 2, in a word of 32 bits.
#[derive(Clone, Copy)]
pub struct Unit10<T>(pub PhantomData<T>);

/// A sample of 12 bits and a pad of 4, in a word of 16 bits.
#[derive(Clone, Copy)]
pub struct Unit12<T>(pub PhantomData<T>);

/// A sample of 16 bits: a word.
#[derive(Clone, Copy)]
pub struct Unit16<T>(pub PhantomData<T>);

impl Block for Unit8 {
    ghost form = { λ _. unit8 };

    ghost Fits = { λ _ samples pads. FitUnit 256 16 samples pads };

    ghost IsSound = { λ _. Unit {0} };

    fn sizes(&self) -> Sizes {
        Sizes {
            bytes: 1,
            samples: 1,
            pads: 0,
        }
    }

    fn split(&self, bytes: &[u8], samples: &mut [u16], _pads: &mut [u8]) {
        samples[0] = u16::from(bytes[0]);
    }

    fn join(&self, samples: &[u16], _pads: &[u8], bytes: &mut [u8]) {
        bytes[0] = samples[0] as u8;
    }
}

impl<T: ByteOrder> Block for Unit10<T> {
    ghost form = { λ _. unit10 (record { number_of = T.number_of; bytes_of = T.bytes_of }) };

    ghost Fits = { λ _ samples pads. FitUnit 1024 4 samples pads };

    ghost IsSound = { λ _. Unit {0} };

    fn sizes(&self) -> Sizes {
        Sizes {
            bytes: 4,
            samples: 3,
            pads: 1,
        }
    }

    fn split(&self, bytes: &[u8], samples: &mut [u16], pads: &mut [u8]) {
        let word = T::read_u32(bytes);
        samples[0] = (word >> 22) as u16;
        samples[1] = (word >> 12 & 0x3FF) as u16;
        samples[2] = (word >> 2 & 0x3FF) as u16;
        pads[0] = (word & 3) as u8;
    }

    fn join(&self, samples: &[u16], pads: &[u8], bytes: &mut [u8]) {
        let red = u32::from(samples[0]) << 22;
        let green = u32::from(samples[1]) << 12;
        let blue = u32::from(samples[2]) << 2;
        T::write_u32(bytes, red + green + blue + u32::from(pads[0]));
    }
}

impl<T: ByteOrder> Block for Unit12<T> {
    ghost form = { λ _. unit12 (record { number_of = T.number_of; bytes_of = T.bytes_of }) };

    ghost Fits = { λ _ samples pads. FitUnit 4096 16 samples pads };

    ghost IsSound = { λ _. Unit {0} };

    fn sizes(&self) -> Sizes {
        Sizes {
            bytes: 2,
            samples: 1,
            pads: 1,
        }
    }

    fn split(&self, bytes: &[u8], samples: &mut [u16], pads: &mut [u8]) {
        let word = T::read_u16(bytes);
        samples[0] = word >> 4;
        pads[0] = (word & 15) as u8;
    }

    fn join(&self, samples: &[u16], pads: &[u8], bytes: &mut [u8]) {
        T::write_u16(bytes, (samples[0] << 4) + u16::from(pads[0]));
    }
}

impl<T: ByteOrder> Block for Unit16<T> {
    ghost form = { λ _. unit16 (record { number_of = T.number_of; bytes_of = T.bytes_of }) };

    ghost Fits = { λ _ samples pads. FitUnit 65536 16 samples pads };

    ghost IsSound = { λ _. Unit {0} };

    fn sizes(&self) -> Sizes {
        Sizes {
            bytes: 2,
            samples: 1,
            pads: 0,
        }
    }

    fn split(&self, bytes: &[u8], samples: &mut [u16], _pads: &mut [u8]) {
        samples[0] = T::read_u16(bytes);
    }

    fn join(&self, samples: &[u16], _pads: &[u8], bytes: &mut [u8]) {
        T::write_u16(bytes, samples[0]);
    }
}

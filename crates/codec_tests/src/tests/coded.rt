// Numbers are coded and read by data, in the program that runs the cases; bits one by one are tested here.

use super::is;
use cook_bits::Bytes;
use range_coder::{Decoder, Encoder, Table};
use std::alloc::Global;
use std::test::*;

// Bits whose coded bytes need a carry through two bytes 255 that were written, 2D FF FF before it.
const CARRIED: &[u8] = b"0010100011001100100110001";

// And through one, where bits follow.
const CARRIED_EARLIER: &[u8] = b"001010001100110010011001011010101";

// The coded bytes of bits on one state, which is 128 at first.
fn coded_bits(alloc: Global, bits: &[u8]) -> Result<Bytes, Fail> {
    let table = Table::default_table();
    let mut encoder = Encoder::new(alloc);
    encoder.reserve(bits.len())?;
    let mut state = 128;
    for bit in bits {
        if !table.live(state) {
            return Err("a state that isn't live".into());
        }
        encoder.put(&table, &mut state, *bit == b'1')?;
    }
    Ok(encoder.finish()?)
}

// Whether the bytes are read as these bits on one state.
fn are_read(bytes: &[u8], bits: &[u8]) -> bool {
    let table = Table::default_table();
    let Some(mut decoder) = Decoder::new(bytes) else {
        return false;
    };
    let mut state = 128;
    for bit in bits {
        if !table.live(state) || decoder.get(&table, &mut state) != (*bit == b'1') {
            return false;
        }
    }
    true
}

#[test]
fn bits_are_coded_and_read(rt: HostRuntime) -> Result<(), Fail> {
    let cases: [(&[u8], &[u8]); 4] = [
        (b"", &[0x00]),
        (b"1", &[0x80]),
        (CARRIED, &[0x2E, 0x00, 0x00, 0x5B]),
        (CARRIED_EARLIER, &[0x2E, 0x00, 0x01, 0x03, 0xDF]),
    ];
    for (bits, bytes) in cases {
        let coded = coded_bits(rt.alloc(), bits)?;
        is(&rt, coded.as_slice(), bytes);
        assert!(rt; are_read(bytes, bits));
    }
    Ok(())
}

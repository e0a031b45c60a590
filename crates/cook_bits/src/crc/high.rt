ghost use Rattle.std.specs.Prelude.{◌≡◌, ◌∷◌, [], length};
ghost use Rattle.cook_bits.specs.Crc.{crc_of, highest_first, crc32_high_of};

use super::high_tables::{HIGH_0, HIGH_1, HIGH_2, HIGH_3, HIGH_4, HIGH_5, HIGH_6, HIGH_7};

#[inline(always)]
fn after_byte(register: u32, byte: u8) -> u32
    ensures { result ≡ crc_of highest_first 32 0x04C1_1DB7 register (byte ∷ []) }
{
    (register << 8) ^ HIGH_0[((register >> 24) ^ u32::from(byte)) as usize]
}

fn after_rest(register: u32, bytes: &[u8]) -> u32
    ensures { result ≡ crc_of highest_first 32 0x04C1_1DB7 register bytes.now }
{
    let mut register = register;
    for byte in bytes {
        register = after_byte(register, *byte);
    }
    register
}

// Each byte counts as it does before as many zero bytes as follow it, the first four with the register's bytes.
#[inline(always)]
fn after_eight(register: u32, eight: &[u8]) -> u32
    requires { length eight.now ≡ 8 }
    ensures { result ≡ crc_of highest_first 32 0x04C1_1DB7 register eight.now }
{
    let word = register ^ u32::from_be_bytes([eight[0], eight[1], eight[2], eight[3]]);
    HIGH_7[(word >> 24) as usize]
        ^ HIGH_6[((word >> 16) % 256) as usize]
        ^ HIGH_5[((word >> 8) % 256) as usize]
        ^ HIGH_4[(word % 256) as usize]
        ^ HIGH_3[eight[4] as usize]
        ^ HIGH_2[eight[5] as usize]
        ^ HIGH_1[eight[6] as usize]
        ^ HIGH_0[eight[7] as usize]
}

/// The CRC of FFV1 (RFC 9043, section 4.9.3): by the divisor 104C11DB7, the highest bit first, from 0. It takes no memory.
#[tactic(auto, unfolding(crate::specs::Crc::crc32_high_of))]
pub fn crc32_high(bytes: &[u8]) -> u32
    ensures { result ≡ crc32_high_of bytes.now }
{
    let mut register = 0;
    let mut rest = bytes;
    while rest.len() >= 8 {
        let (eight, more) = rest.split_at(8);
        register = after_eight(register, eight);
        rest = more;
    }
    after_rest(register, rest)
}

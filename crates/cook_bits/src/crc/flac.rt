ghost use Rattle.std.specs.Prelude.{◌≡◌, ◌∷◌, []};
ghost use Rattle.cook_bits.specs.Crc.{crc_of, highest_first, crc8_of, crc16_of};

use super::flac_tables::{CRC8, CRC16};

fn after_byte_8(register: u8, byte: u8) -> u8
    ensures { result ≡ crc_of highest_first 8 0x07 register (byte ∷ []) }
{
    CRC8[usize::from(register ^ byte)]
}

fn after_byte_16(register: u16, byte: u8) -> u16
    ensures { result ≡ crc_of highest_first 16 0x8005 register (byte ∷ []) }
{
    (register << 8) ^ CRC16[((register >> 8) ^ u16::from(byte)) as usize]
}

/// The CRC of a FLAC frame's header (RFC 9639, section 9.1.8): by the divisor 107, the highest bit first, from 0. It
/// takes no memory.
pub fn crc8(bytes: &[u8]) -> u8
    ensures { result ≡ crc8_of bytes.now }
{
    let mut register = 0;
    for byte in bytes {
        register = after_byte_8(register, *byte);
    }
    register
}

/// The CRC of a FLAC frame (RFC 9639, section 9.3): by the divisor 18005, the highest bit first, from 0. It takes no
/// memory.
pub fn crc16(bytes: &[u8]) -> u16
    ensures { result ≡ crc16_of bytes.now }
{
    let mut register = 0;
    for byte in bytes {
        register = after_byte_16(register, *byte);
    }
    register
}

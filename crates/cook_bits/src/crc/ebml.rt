ghost use Rattle.std.specs.Prelude.{◌≡◌, ◌∷◌, [], length};
ghost use Rattle.std.specs.Int.{w32, bit_not};
ghost use Rattle.cook_bits.specs.Crc.{ebml_register_after, crc32_ebml_of};

use super::ebml_tables::{EBML_0, EBML_1, EBML_2, EBML_3, EBML_4, EBML_5, EBML_6, EBML_7};
use std::marker::Model;

#[inline(always)]
fn after_byte(register: u32, byte: u8) -> u32
    ensures { result ≡ ebml_register_after register (byte ∷ []) }
{
    (register >> 8) ^ EBML_0[(register % 256 ^ u32::from(byte)) as usize]
}

fn after_rest(register: u32, bytes: &[u8]) -> u32
    ensures { result ≡ ebml_register_after register bytes.now }
{
    let mut register = register;
    for byte in bytes {
        register = after_byte(register, *byte);
    }
    register
}

// Each byte counts as it does before as many zero bytes as follow it, the first four with the register's bytes.
#[inline(always)]
fn after_eight(register: u32, eight: &[u8]) -> u32
    requires { length eight.now ≡ 8 }
    ensures { result ≡ ebml_register_after register eight.now }
{
    let word = register ^ u32::from_le_bytes([eight[0], eight[1], eight[2], eight[3]]);
    EBML_7[(word % 256) as usize]
        ^ EBML_6[((word >> 8) % 256) as usize]
        ^ EBML_5[((word >> 16) % 256) as usize]
        ^ EBML_4[(word >> 24) as usize]
        ^ EBML_3[eight[4] as usize]
        ^ EBML_2[eight[5] as usize]
        ^ EBML_1[eight[6] as usize]
        ^ EBML_0[eight[7] as usize]
}

fn after_bytes(register: u32, bytes: &[u8]) -> u32
    ensures { result ≡ ebml_register_after register bytes.now }
{
    let mut register = register;
    let mut rest = bytes;
    while rest.len() >= 8 {
        let (eight, more) = rest.split_at(8);
        register = after_eight(register, eight);
        rest = more;
    }
    after_rest(register, rest)
}

/// The CRC of EBML over bytes that come in parts. Contracts see its register.
#[derive(Debug, Drop)]
pub struct Crc32Ebml {
    register: u32,
}

impl Model for Crc32Ebml {
    ghost use Rattle.std.specs.Prelude.{ℕ};

    ghost Value = { ℕ };

    ghost view = { λ c. c.register };
}

impl Crc32Ebml {
    /// The register of no bytes. It takes no memory.
    pub fn new() -> Crc32Ebml
        ensures { result ≡ 0xFFFF_FFFF }
    {
        Crc32Ebml {
            register: 0xFFFF_FFFF,
        }
    }

    /// Adds more bytes. It takes no memory.
    pub fn update(&mut self, bytes: &[u8])
        ensures { self.new ≡ ebml_register_after self.old bytes.now }
    {
        self.register = after_bytes(self.register, bytes);
    }

    /// The CRC of the bytes so far. It takes no memory.
    pub fn value(&self) -> u32
        ensures { result ≡ bit_not w32 self.now }
    {
        !self.register
    }
}

/// The CRC of EBML (RFC 8794, section 11.3.1), the usual CRC-32: by the divisor 104C11DB7, the lowest bit first,
/// inverted before and after. It takes no memory.
#[tactic(auto, unfolding(crate::specs::Crc::crc32_ebml_of))]
pub fn crc32_ebml(bytes: &[u8]) -> u32
    ensures { result ≡ crc32_ebml_of bytes.now }
{
    !after_bytes(0xFFFF_FFFF, bytes)
}

ghost use Rattle.std.specs.Prelude.{◌≡◌, ◌+◌, ◌-◌, ◌*◌, ◌/◌, ◌%◌, ◌^◌, ◌<◌, ◌≤◌, ◌++◌, [], length, replicate, false, OnOk, OnErr};
ghost use Rattle.cook_bits.specs.Bits.{low_bits, bits_of, bytes_of};

use crate::{Bytes, NoMemory};
use std::alloc::Global;
use std::marker::Model;

/// A writer of fields of bits, the highest bit of each byte first. Contracts see the bits that were written.
#[derive(Drop)]
pub struct BitWriter {
    bytes: Vec<u8>,
    // the bits behind the whole bytes, fewer than eight, as a number
    rest: u64,
    held: u32,
}

impl Model for BitWriter {
    ghost use Rattle.std.specs.Prelude.{List, Bool, ◌++◌, ◌<◌, ◌^◌};
    ghost use Rattle.cook_bits.specs.Bits.{low_bits, bits_of};

    ghost Value = { List Bool };

    ghost view = { λ w. bits_of w.bytes.items ++ low_bits w.held w.rest };

    ghost invariant = { λ w. (w.held < 8) × (w.rest < 2 ^ w.held) };
}

impl BitWriter {
    /// A writer of no bits. It takes no memory until bits are written.
    pub fn new(alloc: Global) -> BitWriter
        ensures { result ≡ [] }
    {
        BitWriter {
            bytes: Vec::new(alloc),
            rest: 0,
            held: 0,
        }
    }

    /// Adds the lowest `count` bits of the value, at most 32; the value has no others. After a refusal the writer is
    /// unchanged.
    pub fn put(&mut self, value: u32, count: u32) -> Result<(), NoMemory>
        requires few { count ≤ 32 }
        requires fits { value < 2 ^ count }
        ensures ok { OnOk result (self.new ≡ self.old ++ low_bits count value) }
        ensures err { OnErr result (self.new ≡ self.old) }
    {
        let joined = (self.rest << count) + u64::from(value);
        let total = self.held + count;
        let held = total % 8;
        let whole = ((joined >> held) as u32).to_be_bytes();
        self.bytes
            .extend_from_slice(&whole[4 - (total / 8) as usize..])?;
        self.rest = joined % (1 << held);
        self.held = held;
        Ok(())
    }

    /// Adds zero bits up to a whole byte, and none where there is one. After a refusal the writer is unchanged.
    pub fn align(&mut self) -> Result<(), NoMemory>
        ensures ok { OnOk result (self.new ≡ self.old ++ replicate ((8 - length self.old % 8) % 8) false) }
        ensures err { OnErr result (self.new ≡ self.old) }
    {
        let held = self.held;
        if held == 0 {
            return Ok(());
        }
        self.put(0, 8 - held)
    }

    /// Gives the bytes. The bits fill whole bytes. It takes no memory.
    pub fn finish(self) -> Bytes
        requires { length self % 8 ≡ 0 }
        ensures bits { bits_of result ≡ self }
        ensures bytes { result ≡ bytes_of self }
    {
        let BitWriter {
            bytes,
            rest: _,
            held: _,
        } = self;
        are_of_their_bits(bytes.as_slice());
        Bytes::from_vec(bytes)
    }
}

// Bytes are told by their bits, since each is below 256.
fn are_of_their_bits(bytes: &[u8])
    ensures { bytes_of (bits_of bytes.now) ≡ bytes.now }
{}

ghost use Rattle.std.specs.Prelude.{◌≡◌, ◌+◌, ◌-◌, ◌^◌, ◌<◌, ◌≤◌, ◌++◌, [], length, min, IfSome};
ghost use Rattle.cook_bits.specs.Bits.{low_bits, bits_of, number_taken, bits_left};

use std::marker::Model;

mod unary;
mod whole_bytes;

/// A reader of fields of bits, the highest bit of each byte first. Contracts see the bits that are left.
#[derive(Drop)]
pub struct BitReader<'a> {
    // the lowest `held` bits of `word` are the next ones
    word: u64,
    held: u32,
    rest: &'a [u8],
}

impl<'a> Model for BitReader<'a> {
    ghost use Rattle.std.specs.Prelude.{List, Bool, ◌++◌, ◌<◌};
    ghost use Rattle.cook_bits.specs.Bits.{low_bits, bits_of};

    ghost Value = { List Bool };

    ghost view = { λ r. low_bits r.held r.word ++ bits_of r.rest.now };

    ghost invariant = { λ r. r.held < 64 };
}

#[derive(Drop)]
struct Ahead<'a> {
    word: u64,
    held: u32,
    rest: &'a [u8],
}

// Moves up to four bytes to the bits that are held.
fn filled(word: u64, held: u32, rest: &[u8]) -> Ahead<'_>
    requires { held < 32 }
    ensures same { low_bits result.held result.word ++ bits_of result.rest.now
        ≡ low_bits held word ++ bits_of rest.now }
    ensures within { result.held < 64 }
    ensures enough { result.held < 32 → result.rest.now ≡ [] }
{
    let (next, rest) = rest.split_at(rest.len().min(4));
    let mut word = word;
    let mut held = held;
    for byte in next {
        word = word % (1 << 56) * 256 + u64::from(*byte);
        held += 8;
    }
    Ahead { word, held, rest }
}

// The same bits, of which so many are held where there are so many.
#[inline(always)]
fn with_enough(word: u64, held: u32, rest: &[u8], count: u32) -> Ahead<'_>
    requires few { count ≤ 32 }
    requires within { held < 64 }
    ensures same { low_bits result.held result.word ++ bits_of result.rest.now
        ≡ low_bits held word ++ bits_of rest.now }
    ensures within { result.held < 64 }
    ensures enough { result.held < count → result.rest.now ≡ [] }
{
    if held < count {
        filled(word, held, rest)
    } else {
        Ahead { word, held, rest }
    }
}

impl BitReader<'_> {
    /// Begins at the first bit. It takes no memory.
    pub fn new(bytes: &[u8]) -> BitReader<'_>
        ensures { result ≡ bits_of bytes.now }
    {
        BitReader {
            word: 0,
            held: 0,
            rest: bytes,
        }
    }

    /// The number of the next `count` bits, at most 32 of them. `None` exactly where fewer are left; the reader is
    /// then unchanged. It takes no memory.
    #[inline(always)]
    pub fn take(&mut self, count: u32) -> Option<u32>
        requires { count ≤ 32 }
        ensures value { result ≡ number_taken count self.old }
        ensures left { self.new ≡ bits_left count self.old }
        ensures fits { IfSome result (λ value. value < 2 ^ count) }
    {
        let ahead = with_enough(self.word, self.held, self.rest, count);
        self.word = ahead.word;
        self.held = ahead.held;
        self.rest = ahead.rest;
        if self.held < count {
            return None;
        }
        self.held -= count;
        Some(((self.word >> self.held) % (1 << count)) as u32)
    }

    /// How many bits are left, or 2^64 - 1 where there are more. It takes no memory.
    pub fn left(&self) -> u64
        ensures { result ≡ min (length self.now) (2 ^ 64 - 1) }
    {
        let rest = self.rest.len() as u64;
        rest.saturating_mul(8).saturating_add(u64::from(self.held))
    }
}

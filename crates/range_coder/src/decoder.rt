ghost use Rattle.std.specs.Prelude.{◌≡◌, ℕ, true, ◌+◌, ◌-◌, ◌<◌, ◌≤◌, ◌↔◌, [], ◌∷◌, nat_le, if◌then◌else◌, slice_index, length, IsNone, IfSome, IfOk, OnErr};
ghost use Rattle.range_coder.specs.Interval.{part_of_one};
ghost use Rattle.range_coder.specs.Reading.{Begins, ReadsOn, GoesOn};
ghost use Rattle.range_coder.specs.Table.{IsState, IsLive, IsClosed, AreLive, next_state};
ghost use Rattle.range_coder.specs.Choices.{moved};
ghost use Rattle.range_coder.specs.Coding.{Gets};
ghost use Rattle.range_coder.specs.Symbol.{choice, IsCodable, symbol_choices, overlong_choices};

use crate::getting::{get_signed, get_value};
use crate::{BadSymbol, Table};
use std::marker::Model;

/// The range before any bit.
const WHOLE: u32 = 65280;

/// Reads bits from coded bytes (RFC 9043, section 3.8.1.1). Past the end of the bytes it reads zeros.
///
/// The number that the bytes name is kept by its distance to the end of the range, which bit 1 doesn't change.
#[derive(Drop)]
pub struct Decoder<'a> {
    rest: &'a [u8],
    below: u32,
    range: u32,
}

impl<'a> Model for Decoder<'a> {
    ghost use Rattle.std.specs.Prelude.{◌-◌, ◌≤◌};
    ghost use Rattle.range_coder.specs.Reading.{Reader};

    ghost Value = { Reader };

    ghost view = { λ d. record { offset = d.range - d.below; range = d.range; rest = d.rest.now } };

    ghost invariant = { λ d. (1 ≤ d.below) × (d.below ≤ d.range) × (256 ≤ d.range) × (d.range ≤ 65280) };
}

impl<'a> Decoder<'a> {
    /// Begins to read the bytes. There are none to read where the first byte is 255. It takes no memory.
    pub fn new(bytes: &'a [u8]) -> Option<Decoder<'a>>
        ensures refused { IsNone result ↔ (slice_index bytes.now 0 ≡ 255) }
        ensures begins { IfSome result (λ d. Begins d bytes.now) }
    {
        let (high, rest) = split_byte(bytes);
        let (low, rest) = split_byte(rest);
        if high == 255 {
            return None;
        }
        Some(Decoder {
            rest,
            below: WHOLE - (u32::from(high) * 256 + u32::from(low)),
            range: WHOLE,
        })
    }

    /// The same reader once more: one to read on with in a local variable, and to put back behind a line. It takes no
    /// memory.
    #[inline(always)]
    pub fn copied(&self) -> Decoder<'a>
        ensures { result ≡ self.now }
    {
        Decoder {
            rest: self.rest,
            below: self.below,
            range: self.range,
        }
    }

    /// Reads a bit with the state, and adapts the state. It takes no memory.
    #[inline(always)]
    pub fn get(&mut self, table: &Table, state: &mut u8) -> bool
        requires live { IsLive table.now state.old }
        ensures reads { ReadsOn self.old self.new (record { state = state.old; bit = result } ∷ []) }
        ensures next { state.new ≡ next_state table.now state.old result }
        ensures live { IsLive table.now state.new }
        ensures closed { IsClosed table.now }
    {
        let (bit, below, range) = part(self.below, self.range, *state);
        *state = table.next(*state, bit);
        self.renew(below, range);
        bit
    }

    // The same, for a bit on which the caller branches, as this does.
    #[inline(always)]
    fn get_flag(&mut self, table: &Table, state: &mut u8) -> bool
        requires live { IsLive table.now state.old }
        ensures reads { ReadsOn self.old self.new (record { state = state.old; bit = result } ∷ []) }
        ensures next { state.new ≡ next_state table.now state.old result }
        ensures live { IsLive table.now state.new }
        ensures closed { IsClosed table.now }
    {
        let below = self.below;
        let range = self.range;
        let ones = range * u32::from(*state) / 256;
        if below <= ones {
            *state = table.next(*state, true);
            self.renew(below, ones);
            true
        } else {
            *state = table.next(*state, false);
            self.renew(below - ones, range - ones);
            false
        }
    }

    // Goes on with the part of the range that was decided, and with a byte more where it has become small.
    #[inline(always)]
    fn renew(&mut self, below: u32, range: u32)
        requires some { 1 ≤ below }
        requires inside { below ≤ range }
        requires most { range ≤ 65280 }
        ensures { GoesOn (range - below) range self.old self.new }
    {
        if range < 256 {
            let (byte, rest) = split_byte(self.rest);
            self.rest = rest;
            self.below = below * 256 - u32::from(byte);
            self.range = range * 256;
        } else {
            self.below = below;
            self.range = range;
        }
    }

    /// Reads a bit with the state of a slot, of any number of states, and adapts it. It takes no memory.
    #[inline(always)]
    pub fn get_slot(&mut self, table: &Table, states: &mut [u8], slot: usize) -> bool
        requires slot { slot < length states.old }
        requires live { AreLive table.now states.old }
        ensures gets { Gets table.now self.old states.old self.new states.new (choice slot result ∷ []) }
        ensures live { AreLive table.now states.new }
        ensures closed { IsClosed table.now }
    {
        self.get(table, &mut states[slot])
    }

    // The same, for a bit on which the caller branches.
    #[inline(always)]
    pub(crate) fn get_flag_slot(&mut self, table: &Table, states: &mut [u8], slot: usize) -> bool
        requires slot { slot < length states.old }
        requires live { AreLive table.now states.old }
        ensures gets { Gets table.now self.old states.old self.new states.new (choice slot result ∷ []) }
        ensures live { AreLive table.now states.new }
        ensures closed { IsClosed table.now }
    {
        self.get_flag(table, &mut states[slot])
    }

    /// Reads a number with the 32 states that begin at a slot, of any number of states, and adapts them. It is
    /// `BadSymbol` exactly where the exponent passes 30. It takes no memory.
    #[inline(always)]
    pub fn get_symbol_at(
        &mut self,
        table: &Table,
        states: &mut [u8],
        first: usize,
        signed: bool,
    ) -> Result<i32, BadSymbol>
        requires within { first + 32 ≤ length states.old }
        requires live { AreLive table.now states.old }
        ensures ok { IfOk result (λ value. Gets table.now self.old states.old self.new states.new (moved first (symbol_choices value signed))) }
        ensures codable { IfOk result (λ value. IsCodable value signed) }
        ensures bad { OnErr result (Gets table.now self.old states.old self.new states.new (moved first overlong_choices)) }
        ensures live { AreLive table.now states.new }
        ensures closed { IsClosed table.now }
    {
        let set = &mut states[first..first + 32];
        get_value(self, table, set, signed)
    }

    /// The same for a number with a sign, with more code: for the one loop of a program that reads most of its numbers,
    /// into which it is inlined where no other place calls it.
    #[inline]
    pub fn get_signed_at(
        &mut self,
        table: &Table,
        states: &mut [u8],
        first: usize,
    ) -> Result<i32, BadSymbol>
        requires within { first + 32 ≤ length states.old }
        requires live { AreLive table.now states.old }
        ensures ok { IfOk result (λ value. Gets table.now self.old states.old self.new states.new (moved first (symbol_choices value true))) }
        ensures codable { IfOk result (λ value. IsCodable value true) }
        ensures bad { OnErr result (Gets table.now self.old states.old self.new states.new (moved first overlong_choices)) }
        ensures live { AreLive table.now states.new }
        ensures closed { IsClosed table.now }
    {
        let set = &mut states[first..first + 32];
        get_signed(self, table, set)
    }
}

// The bit in whose part of the range the number stands, and the distance to the end of that part and its range.
#[inline(always)]
fn part(below: u32, range: u32, state: u8) -> (bool, u32, u32)
    requires usable { IsState state }
    requires least { 256 ≤ range }
    requires most { range ≤ 65280 }
    requires some { 1 ≤ below }
    requires inside { below ≤ range }
    ensures bit { result.0 ≡ nat_le below (part_of_one range state) }
    ensures below { result.1 ≡ (if result.0 then below else below - part_of_one range state) }
    ensures range { result.2 ≡ (if result.0 then part_of_one range state else range - part_of_one range state) }
    ensures some { 1 ≤ result.1 }
    ensures inside { result.1 ≤ result.2 }
    ensures most { result.2 ≤ 65280 }
{
    let ones = range * u32::from(state) / 256;
    let bit = below <= ones;
    let below = if bit { below } else { below - ones };
    let range = if bit { ones } else { range - ones };
    (bit, below, range)
}

// The first byte, or 0 where there is none, and the bytes after it.
#[inline(always)]
fn split_byte(bytes: &[u8]) -> (u8, &[u8])
    ensures byte { result.0 ≡ slice_index bytes.now 0 }
    ensures fits { result.0 < 256 }
    ensures rest { (k : ℕ) → slice_index result.1.now k ≡ slice_index bytes.now (k + 1) }
{
    match bytes {
        [first, rest @ ..] => (*first, rest),
        [] => (0, bytes),
    }
}

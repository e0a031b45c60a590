// Numbers put as bits, each with the state of a slot of a set of 32 (RFC 9043, section 3.8.1.2). The window stands in a
// local variable of the caller, so what is coded often is inlined.

ghost use Rattle.std.specs.Prelude.{◌≡◌, true, ◌+◌, ◌*◌, ◌<◌, ◌≤◌, ◌++◌, [], ◌∷◌, length, OnOk, OnErr};
ghost use Rattle.range_coder.specs.Table.{IsClosed, AreLive};
ghost use Rattle.range_coder.specs.Encoding.{IsWindow};
ghost use Rattle.range_coder.specs.Held.{PutsIn, FrontIn};
ghost use Rattle.range_coder.specs.Symbol.{IsCodable, symbol_choices, choice, magnitude_choices, exponent_of, exponent_slot, exponent_choices, tail_choices, behind_choices, ones, low_bits, sign_choices};
ghost use Rattle.range_coder.specs.Placing.{IsPlaced, ArePlaced, placed_symbol, placed_symbols};

use crate::window::Window;
use crate::{Placed, Table};
use cook_bits::NoMemory;

/// The states of a set.
const SET: usize = 32;

/// Codes numbers one after another, each with the set that begins at its slot.
pub(crate) fn put_line(
    window: &mut Window,
    bytes: &mut Vec<u8>,
    table: &Table,
    states: &mut [u8],
    symbols: &[Placed],
    signed: bool,
) -> Result<(), NoMemory>
    requires live { AreLive table.now states.old }
    requires placed { ArePlaced (length states.old) signed symbols.now }
    requires window { IsWindow bytes.old.items window.old.top window.old.range }
    ensures ok { OnOk result (PutsIn table.now window.old bytes.old states.old window.new bytes.new states.new (placed_symbols signed symbols.now)) }
    ensures err { OnErr result (FrontIn table.now window.old bytes.old states.old window.new bytes.new states.new (placed_symbols signed symbols.now)) }
    ensures live { AreLive table.now states.new }
    ensures window { IsWindow bytes.new.items window.new.top window.new.range }
{
    for symbol in symbols {
        put_placed(window, bytes, table, states, *symbol, signed)?;
    }
    Ok(())
}

// Codes a number with the set that begins at its slot.
#[inline(always)]
fn put_placed(
    window: &mut Window,
    bytes: &mut Vec<u8>,
    table: &Table,
    states: &mut [u8],
    symbol: Placed,
    signed: bool,
) -> Result<(), NoMemory>
    requires live { AreLive table.now states.old }
    requires placed { IsPlaced (length states.old) signed symbol }
    requires window { IsWindow bytes.old.items window.old.top window.old.range }
    ensures ok { OnOk result (PutsIn table.now window.old bytes.old states.old window.new bytes.new states.new (placed_symbol signed symbol)) }
    ensures err { OnErr result (FrontIn table.now window.old bytes.old states.old window.new bytes.new states.new (placed_symbol signed symbol)) }
    ensures live { AreLive table.now states.new }
    ensures window { IsWindow bytes.new.items window.new.top window.new.range }
{
    let first = symbol.first as usize;
    let set = &mut states[first..first + SET];
    put_usual(window, bytes, table, set, symbol.value, signed)
}

/// Codes a number with a set.
pub(crate) fn put_value(
    window: &mut Window,
    bytes: &mut Vec<u8>,
    table: &Table,
    set: &mut [u8],
    value: i32,
    signed: bool,
) -> Result<(), NoMemory>
    requires set { length set.old ≡ 32 }
    requires live { AreLive table.now set.old }
    requires codable { IsCodable value signed }
    requires window { IsWindow bytes.old.items window.old.top window.old.range }
    ensures ok { OnOk result (PutsIn table.now window.old bytes.old set.old window.new bytes.new set.new (symbol_choices value signed)) }
    ensures err { OnErr result (FrontIn table.now window.old bytes.old set.old window.new bytes.new set.new (symbol_choices value signed)) }
    ensures live { AreLive table.now set.new }
    ensures closed { IsClosed table.now }
    ensures window { IsWindow bytes.new.items window.new.top window.new.range }
{
    let magnitude = value.unsigned_abs();
    if magnitude == 0 {
        return window.put_slot(bytes, table, set, 0, true);
    }
    let exponent = exponent_of(magnitude);
    put_parts(
        window,
        bytes,
        table,
        set,
        exponent,
        magnitude,
        value < 0,
        signed,
    )
}

// Codes a number with a set. Each usual exponent has code of its own, in which its slots are known; it is inlined into
// the line's loop, the one place that calls it.
#[inline]
fn put_usual(
    window: &mut Window,
    bytes: &mut Vec<u8>,
    table: &Table,
    set: &mut [u8],
    value: i32,
    signed: bool,
) -> Result<(), NoMemory>
    requires set { length set.old ≡ 32 }
    requires live { AreLive table.now set.old }
    requires codable { IsCodable value signed }
    requires window { IsWindow bytes.old.items window.old.top window.old.range }
    ensures ok { OnOk result (PutsIn table.now window.old bytes.old set.old window.new bytes.new set.new (symbol_choices value signed)) }
    ensures err { OnErr result (FrontIn table.now window.old bytes.old set.old window.new bytes.new set.new (symbol_choices value signed)) }
    ensures live { AreLive table.now set.new }
    ensures window { IsWindow bytes.new.items window.new.top window.new.range }
{
    let magnitude = value.unsigned_abs();
    if magnitude == 0 {
        return window.put_slot(bytes, table, set, 0, true);
    }
    put_nonzero(window, bytes, table, set, magnitude, value < 0, signed)
}

// Codes a number that isn't 0.
#[inline]
fn put_nonzero(
    window: &mut Window,
    bytes: &mut Vec<u8>,
    table: &Table,
    set: &mut [u8],
    magnitude: u32,
    negative: bool,
    signed: bool,
) -> Result<(), NoMemory>
    requires set { length set.old ≡ 32 }
    requires live { AreLive table.now set.old }
    requires some { 0 < magnitude }
    requires window { IsWindow bytes.old.items window.old.top window.old.range }
    ensures ok { OnOk result (PutsIn table.now window.old bytes.old set.old window.new bytes.new set.new (magnitude_choices magnitude negative signed)) }
    ensures err { OnErr result (FrontIn table.now window.old bytes.old set.old window.new bytes.new set.new (magnitude_choices magnitude negative signed)) }
    ensures live { AreLive table.now set.new }
    ensures window { IsWindow bytes.new.items window.new.top window.new.range }
{
    window.put_slot(bytes, table, set, 0, false)?;
    put_behind(window, bytes, table, set, magnitude, negative, signed)
}

// Codes a number behind the choice that it isn't 0.
#[inline]
fn put_behind(
    window: &mut Window,
    bytes: &mut Vec<u8>,
    table: &Table,
    set: &mut [u8],
    magnitude: u32,
    negative: bool,
    signed: bool,
) -> Result<(), NoMemory>
    requires set { length set.old ≡ 32 }
    requires live { AreLive table.now set.old }
    requires some { 0 < magnitude }
    requires window { IsWindow bytes.old.items window.old.top window.old.range }
    ensures ok { OnOk result (PutsIn table.now window.old bytes.old set.old window.new bytes.new set.new (behind_choices magnitude negative signed)) }
    ensures err { OnErr result (FrontIn table.now window.old bytes.old set.old window.new bytes.new set.new (behind_choices magnitude negative signed)) }
    ensures live { AreLive table.now set.new }
    ensures window { IsWindow bytes.new.items window.new.top window.new.range }
{
    if magnitude < 2 {
        return put_tail(window, bytes, table, set, 0, magnitude, negative, signed);
    }
    put_one(window, bytes, table, set, 0)?;
    if magnitude < 4 {
        return put_tail(window, bytes, table, set, 1, magnitude, negative, signed);
    }
    put_one(window, bytes, table, set, 1)?;
    if magnitude < 8 {
        return put_tail(window, bytes, table, set, 2, magnitude, negative, signed);
    }
    put_one(window, bytes, table, set, 2)?;
    if magnitude < 16 {
        return put_tail(window, bytes, table, set, 3, magnitude, negative, signed);
    }
    put_one(window, bytes, table, set, 3)?;
    if magnitude < 32 {
        return put_tail(window, bytes, table, set, 4, magnitude, negative, signed);
    }
    put_one(window, bytes, table, set, 4)?;
    if magnitude < 64 {
        return put_tail(window, bytes, table, set, 5, magnitude, negative, signed);
    }
    put_one(window, bytes, table, set, 5)?;
    if magnitude < 128 {
        return put_tail(window, bytes, table, set, 6, magnitude, negative, signed);
    }
    put_one(window, bytes, table, set, 6)?;
    if magnitude < 256 {
        return put_tail(window, bytes, table, set, 7, magnitude, negative, signed);
    }
    put_one(window, bytes, table, set, 7)?;
    if magnitude < 512 {
        return put_tail(window, bytes, table, set, 8, magnitude, negative, signed);
    }
    put_one(window, bytes, table, set, 8)?;
    if magnitude < 1024 {
        return put_tail(window, bytes, table, set, 9, magnitude, negative, signed);
    }
    put_one(window, bytes, table, set, 9)?;
    if magnitude < 2048 {
        return put_tail(window, bytes, table, set, 10, magnitude, negative, signed);
    }
    put_one(window, bytes, table, set, 10)?;
    if magnitude < 4096 {
        return put_tail(window, bytes, table, set, 11, magnitude, negative, signed);
    }
    put_one(window, bytes, table, set, 11)?;
    let exponent = exponent_of(magnitude);
    for count in 12..exponent {
        put_one(window, bytes, table, set, count)?;
    }
    put_tail(
        window, bytes, table, set, exponent, magnitude, negative, signed,
    )
}

// Codes that an exponent is more than so many.
#[inline(always)]
fn put_one(
    window: &mut Window,
    bytes: &mut Vec<u8>,
    table: &Table,
    set: &mut [u8],
    count: usize,
) -> Result<(), NoMemory>
    requires set { length set.old ≡ 32 }
    requires live { AreLive table.now set.old }
    requires window { IsWindow bytes.old.items window.old.top window.old.range }
    ensures ok { OnOk result (PutsIn table.now window.old bytes.old set.old window.new bytes.new set.new (choice (exponent_slot count) true ∷ [])) }
    ensures err { OnErr result (FrontIn table.now window.old bytes.old set.old window.new bytes.new set.new (choice (exponent_slot count) true ∷ [])) }
    ensures live { AreLive table.now set.new }
    ensures window { IsWindow bytes.new.items window.new.top window.new.range }
{
    window.put_slot(bytes, table, set, 1 + count.min(9), true)
}

// Codes the end of an exponent and what stands behind it.
#[inline(always)]
fn put_tail(
    window: &mut Window,
    bytes: &mut Vec<u8>,
    table: &Table,
    set: &mut [u8],
    exponent: usize,
    magnitude: u32,
    negative: bool,
    signed: bool,
) -> Result<(), NoMemory>
    requires set { length set.old ≡ 32 }
    requires live { AreLive table.now set.old }
    requires exponent { exponent < 32 }
    requires window { IsWindow bytes.old.items window.old.top window.old.range }
    ensures ok { OnOk result (PutsIn table.now window.old bytes.old set.old window.new bytes.new set.new (tail_choices exponent magnitude negative signed)) }
    ensures err { OnErr result (FrontIn table.now window.old bytes.old set.old window.new bytes.new set.new (tail_choices exponent magnitude negative signed)) }
    ensures live { AreLive table.now set.new }
    ensures window { IsWindow bytes.new.items window.new.top window.new.range }
{
    window.put_slot(bytes, table, set, 1 + exponent.min(9), false)?;
    put_low_bits(window, bytes, table, set, exponent, magnitude)?;
    put_sign(window, bytes, table, set, exponent, negative, signed)?;
    Ok(())
}

// Codes a number that isn't 0, whose exponent is known.
#[inline(always)]
fn put_parts(
    window: &mut Window,
    bytes: &mut Vec<u8>,
    table: &Table,
    set: &mut [u8],
    exponent: usize,
    magnitude: u32,
    negative: bool,
    signed: bool,
) -> Result<(), NoMemory>
    requires set { length set.old ≡ 32 }
    requires live { AreLive table.now set.old }
    requires exponent { exponent ≡ exponent_of magnitude }
    requires high { exponent < 32 }
    requires window { IsWindow bytes.old.items window.old.top window.old.range }
    ensures ok { OnOk result (PutsIn table.now window.old bytes.old set.old window.new bytes.new set.new (magnitude_choices magnitude negative signed)) }
    ensures err { OnErr result (FrontIn table.now window.old bytes.old set.old window.new bytes.new set.new (magnitude_choices magnitude negative signed)) }
    ensures live { AreLive table.now set.new }
    ensures closed { IsClosed table.now }
    ensures window { IsWindow bytes.new.items window.new.top window.new.range }
{
    window.put_slot(bytes, table, set, 0, false)?;
    put_exponent(window, bytes, table, set, exponent)?;
    put_low_bits(window, bytes, table, set, exponent, magnitude)?;
    put_sign(window, bytes, table, set, exponent, negative, signed)?;
    Ok(())
}

// The place of the highest bit.
#[inline(always)]
fn exponent_of(magnitude: u32) -> usize
    requires { 0 < magnitude }
    ensures exponent { result ≡ exponent_of magnitude }
    ensures high { result < 32 }
{
    magnitude.ilog2() as usize
}

// Codes an exponent.
#[inline(always)]
fn put_exponent(
    window: &mut Window,
    bytes: &mut Vec<u8>,
    table: &Table,
    set: &mut [u8],
    exponent: usize,
) -> Result<(), NoMemory>
    requires set { length set.old ≡ 32 }
    requires live { AreLive table.now set.old }
    requires exponent { exponent < 32 }
    requires window { IsWindow bytes.old.items window.old.top window.old.range }
    ensures ok { OnOk result (PutsIn table.now window.old bytes.old set.old window.new bytes.new set.new (exponent_choices exponent)) }
    ensures err { OnErr result (FrontIn table.now window.old bytes.old set.old window.new bytes.new set.new (exponent_choices exponent)) }
    ensures live { AreLive table.now set.new }
    ensures window { IsWindow bytes.new.items window.new.top window.new.range }
{
    put_ones(window, bytes, table, set, exponent)?;
    window.put_slot(bytes, table, set, 1 + exponent.min(9), false)?;
    Ok(())
}

// Codes that many ones of an exponent.
#[inline(always)]
#[tactic(auto, using(crate::proofs::Symbols::coded_ones))]
fn put_ones(
    window: &mut Window,
    bytes: &mut Vec<u8>,
    table: &Table,
    set: &mut [u8],
    exponent: usize,
) -> Result<(), NoMemory>
    requires set { length set.old ≡ 32 }
    requires live { AreLive table.now set.old }
    requires window { IsWindow bytes.old.items window.old.top window.old.range }
    ensures ok { OnOk result (PutsIn table.now window.old bytes.old set.old window.new bytes.new set.new (ones exponent)) }
    ensures err { OnErr result (FrontIn table.now window.old bytes.old set.old window.new bytes.new set.new (ones exponent)) }
    ensures live { AreLive table.now set.new }
    ensures window { IsWindow bytes.new.items window.new.top window.new.range }
{
    for k in 0..exponent {
        window.put_slot(bytes, table, set, 1 + k.min(9), true)?;
    }
    Ok(())
}

// Codes the bits below the highest one.
#[inline(always)]
#[tactic(auto, using(crate::proofs::LowBits::coded_bits))]
fn put_low_bits(
    window: &mut Window,
    bytes: &mut Vec<u8>,
    table: &Table,
    set: &mut [u8],
    exponent: usize,
    magnitude: u32,
) -> Result<(), NoMemory>
    requires set { length set.old ≡ 32 }
    requires live { AreLive table.now set.old }
    requires exponent { exponent < 32 }
    requires window { IsWindow bytes.old.items window.old.top window.old.range }
    ensures ok { OnOk result (PutsIn table.now window.old bytes.old set.old window.new bytes.new set.new (low_bits exponent magnitude)) }
    ensures err { OnErr result (FrontIn table.now window.old bytes.old set.old window.new bytes.new set.new (low_bits exponent magnitude)) }
    ensures live { AreLive table.now set.new }
    ensures window { IsWindow bytes.new.items window.new.top window.new.range }
{
    for place in (0..exponent).rev() {
        window.put_slot(
            bytes,
            table,
            set,
            22 + place.min(9),
            (magnitude >> place) % 2 == 1,
        )?;
    }
    Ok(())
}

// Codes the sign, where there is one.
#[inline(always)]
fn put_sign(
    window: &mut Window,
    bytes: &mut Vec<u8>,
    table: &Table,
    set: &mut [u8],
    exponent: usize,
    negative: bool,
    signed: bool,
) -> Result<(), NoMemory>
    requires set { length set.old ≡ 32 }
    requires live { AreLive table.now set.old }
    requires window { IsWindow bytes.old.items window.old.top window.old.range }
    ensures ok { OnOk result (PutsIn table.now window.old bytes.old set.old window.new bytes.new set.new (sign_choices signed exponent negative)) }
    ensures err { OnErr result (FrontIn table.now window.old bytes.old set.old window.new bytes.new set.new (sign_choices signed exponent negative)) }
    ensures live { AreLive table.now set.new }
    ensures window { IsWindow bytes.new.items window.new.top window.new.range }
{
    if signed {
        window.put_slot(bytes, table, set, 11 + exponent.min(10), negative)?;
    }
    Ok(())
}

// Numbers got from bits, each with the state of a slot of a set of 32 (RFC 9043, section 3.8.1.2).

ghost use Rattle.std.specs.Int.{w32, is_negative};
ghost use Rattle.std.specs.Prelude.{◌≡◌, true, false, unsigned_abs, FitsSigned, ◌+◌, ◌*◌, ◌^◌, ◌<◌, ◌≤◌, ◌++◌, [], ◌∷◌, length, OnErr, IfOk};
ghost use Rattle.range_coder.specs.Table.{IsClosed, AreLive};
ghost use Rattle.range_coder.specs.Coding.{Gets};
ghost use Rattle.range_coder.specs.Symbol.{IsCodable, symbol_choices, overlong_choices, choice, exponent_slot, exponent_choices, nonzero_choices, ones, low_bits, sign_choices, rest_choices};

use crate::{BadSymbol, Decoder, Table};

/// The exponents from here on are rare.
const SHORT: usize = 12;

/// Reads a number with a set.
pub(crate) fn get_value(
    decoder: &mut Decoder<'_>,
    table: &Table,
    set: &mut [u8],
    signed: bool,
) -> Result<i32, BadSymbol>
    requires set { length set.old ≡ 32 }
    requires live { AreLive table.now set.old }
    ensures ok { IfOk result (λ value. Gets table.now decoder.old set.old decoder.new set.new (symbol_choices value signed)) }
    ensures codable { IfOk result (λ value. IsCodable value signed) }
    ensures bad { OnErr result (Gets table.now decoder.old set.old decoder.new set.new overlong_choices) }
    ensures live { AreLive table.now set.new }
    ensures closed { IsClosed table.now }
{
    if decoder.get_flag_slot(table, set, 0) {
        return Ok(0);
    }
    let exponent = get_exponent(decoder, table, set)?;
    Ok(get_rest(decoder, table, set, exponent, signed))
}

/// Reads a number with a sign with a set. Each usual exponent has code of its own, in which its slots are known.
#[inline]
pub(crate) fn get_signed(
    decoder: &mut Decoder<'_>,
    table: &Table,
    set: &mut [u8],
) -> Result<i32, BadSymbol>
    requires set { length set.old ≡ 32 }
    requires live { AreLive table.now set.old }
    ensures ok { IfOk result (λ value. Gets table.now decoder.old set.old decoder.new set.new (symbol_choices value true)) }
    ensures codable { IfOk result (λ value. IsCodable value true) }
    ensures bad { OnErr result (Gets table.now decoder.old set.old decoder.new set.new overlong_choices) }
    ensures live { AreLive table.now set.new }
    ensures closed { IsClosed table.now }
{
    if decoder.get_flag_slot(table, set, 0) {
        return Ok(0);
    }
    get_usual(decoder, table, set)
}

// Reads a number with a sign behind the choice that it isn't 0.
#[inline]
#[tactic(auto, using(crate::proofs::Symbols::coded_ones))]
fn get_usual(decoder: &mut Decoder<'_>, table: &Table, set: &mut [u8]) -> Result<i32, BadSymbol>
    requires set { length set.old ≡ 32 }
    requires live { AreLive table.now set.old }
    ensures ok { IfOk result (λ value. Gets table.now decoder.old set.old decoder.new set.new (nonzero_choices value true)) }
    ensures some { IfOk result (λ value. 0 < unsigned_abs value) }
    ensures codable { IfOk result (λ value. IsCodable value true) }
    ensures bad { OnErr result (Gets table.now decoder.old set.old decoder.new set.new (ones 31)) }
    ensures live { AreLive table.now set.new }
{
    if !get_more(decoder, table, set, 0) {
        return Ok(get_rest(decoder, table, set, 0, true));
    }
    if !get_more(decoder, table, set, 1) {
        return Ok(get_rest(decoder, table, set, 1, true));
    }
    if !get_more(decoder, table, set, 2) {
        return Ok(get_rest(decoder, table, set, 2, true));
    }
    if !get_more(decoder, table, set, 3) {
        return Ok(get_rest(decoder, table, set, 3, true));
    }
    if !get_more(decoder, table, set, 4) {
        return Ok(get_rest(decoder, table, set, 4, true));
    }
    if !get_more(decoder, table, set, 5) {
        return Ok(get_rest(decoder, table, set, 5, true));
    }
    if !get_more(decoder, table, set, 6) {
        return Ok(get_rest(decoder, table, set, 6, true));
    }
    if !get_more(decoder, table, set, 7) {
        return Ok(get_rest(decoder, table, set, 7, true));
    }
    if !get_more(decoder, table, set, 8) {
        return Ok(get_rest(decoder, table, set, 8, true));
    }
    if !get_more(decoder, table, set, 9) {
        return Ok(get_rest(decoder, table, set, 9, true));
    }
    if !get_more(decoder, table, set, 10) {
        return Ok(get_rest(decoder, table, set, 10, true));
    }
    if !get_more(decoder, table, set, 11) {
        return Ok(get_rest(decoder, table, set, 11, true));
    }
    for many in SHORT..31 {
        if !get_more(decoder, table, set, many) {
            return Ok(get_rest(decoder, table, set, many, true));
        }
    }
    Err(BadSymbol)
}

// Reads whether the exponent is more than so many.
#[inline(always)]
fn get_more(decoder: &mut Decoder<'_>, table: &Table, set: &mut [u8], count: usize) -> bool
    requires set { length set.old ≡ 32 }
    requires live { AreLive table.now set.old }
    ensures gets { Gets table.now decoder.old set.old decoder.new set.new (choice (exponent_slot count) result ∷ []) }
    ensures live { AreLive table.now set.new }
{
    decoder.get_flag_slot(table, set, 1 + count.min(9))
}

// Reads what is behind the exponent: the bits below the highest one, and the sign.
#[inline(always)]
fn get_rest(
    decoder: &mut Decoder<'_>,
    table: &Table,
    set: &mut [u8],
    exponent: usize,
    signed: bool,
) -> i32
    requires set { length set.old ≡ 32 }
    requires live { AreLive table.now set.old }
    requires exponent { exponent ≤ 30 }
    ensures gets { Gets table.now decoder.old set.old decoder.new set.new (rest_choices exponent result signed) }
    ensures low { 2 ^ exponent ≤ unsigned_abs result }
    ensures high { unsigned_abs result < 2 * 2 ^ exponent }
    ensures unsigned { signed ≡ false → is_negative result ≡ false }
    ensures fits { FitsSigned w32 result }
    ensures live { AreLive table.now set.new }
{
    let magnitude = get_low_bits(decoder, table, set, exponent);
    let negative = get_sign(decoder, table, set, exponent, signed);
    with_sign(magnitude, negative)
}

// Reads an exponent.
#[inline(always)]
#[tactic(auto, using(crate::proofs::Symbols::coded_ones))]
fn get_exponent(
    decoder: &mut Decoder<'_>,
    table: &Table,
    set: &mut [u8],
) -> Result<usize, BadSymbol>
    requires set { length set.old ≡ 32 }
    requires live { AreLive table.now set.old }
    ensures ok { IfOk result (λ exponent. Gets table.now decoder.old set.old decoder.new set.new (exponent_choices exponent)) }
    ensures high { IfOk result (λ exponent. exponent ≤ 30) }
    ensures bad { OnErr result (Gets table.now decoder.old set.old decoder.new set.new (ones 31)) }
    ensures live { AreLive table.now set.new }
{
    for count in 0..31 {
        if !get_more(decoder, table, set, count) {
            return Ok(count);
        }
    }
    Err(BadSymbol)
}

// Reads so many bits below the highest one, and answers the magnitude.
#[inline(always)]
#[tactic(auto, using(crate::proofs::LowBits::coded_bits))]
fn get_low_bits(decoder: &mut Decoder<'_>, table: &Table, set: &mut [u8], exponent: usize) -> u32
    requires set { length set.old ≡ 32 }
    requires live { AreLive table.now set.old }
    requires exponent { exponent ≤ 30 }
    ensures gets { Gets table.now decoder.old set.old decoder.new set.new (low_bits exponent result) }
    ensures low { 2 ^ exponent ≤ result }
    ensures high { result < 2 * 2 ^ exponent }
    ensures live { AreLive table.now set.new }
{
    let mut magnitude = 1;
    for place in (0..exponent).rev() {
        magnitude = 2 * magnitude + u32::from(decoder.get_slot(table, set, 22 + place.min(9)));
    }
    magnitude
}

// Reads the sign, where there is one.
#[inline(always)]
fn get_sign(
    decoder: &mut Decoder<'_>,
    table: &Table,
    set: &mut [u8],
    exponent: usize,
    signed: bool,
) -> bool
    requires set { length set.old ≡ 32 }
    requires live { AreLive table.now set.old }
    ensures gets { Gets table.now decoder.old set.old decoder.new set.new (sign_choices signed exponent result) }
    ensures unsigned { signed ≡ false → result ≡ false }
    ensures live { AreLive table.now set.new }
{
    if signed {
        decoder.get_slot(table, set, 11 + exponent.min(10))
    } else {
        false
    }
}

// The number of this magnitude and sign.
#[inline(always)]
fn with_sign(magnitude: u32, negative: bool) -> i32
    requires some { 0 < magnitude }
    requires high { magnitude < 2 ^ 31 }
    ensures magnitude { unsigned_abs result ≡ magnitude }
    ensures sign { is_negative result ≡ negative }
    ensures fits { FitsSigned w32 result }
{
    let value = magnitude as i32;
    if negative { -value } else { value }
}

// Residuals.

ghost use Rattle.std.specs.Prelude.{◌≡◌, ◌+◌, ◌*◌, ◌/◌, ◌%◌, ◌-◌, ◌^◌, ◌<◌, ◌≤◌, length, nat_lt, min, IfOk, OnOk};
ghost use Rattle.flac_frame.specs.Reading.{Reads, accepted_at, signed_at, each_at};
ghost use Rattle.flac_frame.specs.Residual as stored;
ghost use Rattle.flac_frame.specs.declared.error.FlacWhy.TheVariants.{Residual as Unread};
ghost use Rattle.flac_predict.specs.Samples.{AreInside};

use crate::FlacWhy;
use crate::reading::{field, signed, unary};
use cook_bits::BitReader;

// The signed number of a natural one.
#[inline(always)]
fn unfolded(number: u32) -> i32
    ensures { result ≡ stored.unfolded number }
{
    let half = (number / 2) as i32;
    if number % 2 == 0 { half } else { -1 - half }
}

// The number of a quotient, which is counted in 32 bits, and a rest; a residual has one up to 2^32 - 2.
#[inline(always)]
fn joined(quotient: u32, parameter: u32, rest: u32) -> u64
    requires few { parameter ≤ 30 }
    requires fits { rest < 2 ^ parameter }
    ensures { result ≡ quotient * 2 ^ parameter + rest }
{
    (u64::from(quotient) << parameter) + u64::from(rest)
}

#[inline(always)]
fn value(reader: &mut BitReader<'_>, parameter: u32) -> Result<i32, FlacWhy>
    requires { parameter ≤ 30 }
    ensures { Reads (λ x. x) result reader.new (stored.value_at parameter reader.old) }
{
    let quotient = unary(reader)?;
    let rest = field(reader, parameter)?;
    let number = joined(quotient, parameter, rest);
    if number > 0xFFFF_FFFE {
        return Err(FlacWhy::Residual);
    }
    Ok(unfolded(number as u32))
}

fn values(reader: &mut BitReader<'_>, parameter: u32, out: &mut [i32]) -> Result<(), FlacWhy>
    requires { parameter ≤ 30 }
    ensures { Reads (λ _. out.new) result reader.new
        (each_at (stored.value_at parameter) (length out.old) reader.old) }
{
    for place in 0..out.len() {
        out[place] = value(reader, parameter)?;
    }
    Ok(())
}

/// So many numbers of so many bits each, in two's complement.
pub(crate) fn signed_values(
    reader: &mut BitReader<'_>,
    count: u32,
    out: &mut [i32],
) -> Result<(), FlacWhy>
    requires { count ≤ 31 }
    ensures reads { Reads (λ _. out.new) result reader.new
        (each_at (signed_at count) (length out.old) reader.old) }
    ensures inside { OnOk result (AreInside count out.new) }
{
    for place in 0..out.len() {
        out[place] = signed(reader, count)?;
    }
    Ok(())
}

#[tactic(auto, unfolding(crate::specs::Residual::partition_at))]
fn partition(reader: &mut BitReader<'_>, width: u32, out: &mut [i32]) -> Result<(), FlacWhy>
    requires low { 4 ≤ width }
    requires high { width ≤ 5 }
    ensures { Reads (λ _. out.new) result reader.new
        (stored.partition_at width (length out.old) reader.old) }
{
    let parameter = field(reader, width)?;
    if parameter == (1 << width) - 1 {
        let escaped = field(reader, 5)?;
        signed_values(reader, escaped, out)
    } else {
        values(reader, parameter, out)
    }
}

// So many partitions of one size, of whose first some samples are the warm-up.
fn partitions(
    reader: &mut BitReader<'_>,
    width: u32,
    size: usize,
    warm_up: usize,
    count: u32,
    out: &mut [i32],
) -> Result<(), FlacWhy>
    requires low { 4 ≤ width }
    requires high { width ≤ 5 }
    requires enough { warm_up ≤ size }
    requires room { length out.old + warm_up ≡ count * size }
    ensures { Reads (λ _. out.new) result reader.new
        (stored.partitions_at width size warm_up count reader.old) }
{
    let mut at = 0;
    let mut skipped = warm_up;
    for _ in 0..count {
        let piece = &mut out[at..at + (size - skipped)];
        partition(reader, width, piece)?;
        at += size - skipped;
        skipped = 0;
    }
    Ok(())
}

#[tactic(auto, unfolding(crate::specs::Reading::accepted_at))]
fn method(reader: &mut BitReader<'_>) -> Result<u32, FlacWhy>
    ensures reads { Reads (λ x. x) result reader.new
        (accepted_at 2 (λ method. nat_lt method 2) Unread reader.old) }
    ensures low { IfOk result (λ method. method < 2) }
{
    let method = field(reader, 2)?;
    if method >= 2 {
        return Err(FlacWhy::Residual);
    }
    Ok(method)
}

fn is_partition_order(size: usize, order: usize, exponent: u32) -> bool
    requires { exponent < 16 }
    ensures { result ≡ stored.is_partition_order size order exponent }
{
    size % (1 << exponent) == 0 && order < size / (1 << exponent)
}

#[tactic(auto, unfolding(crate::specs::Reading::accepted_at))]
fn partition_order(reader: &mut BitReader<'_>, size: usize, order: usize) -> Result<u32, FlacWhy>
    ensures reads { Reads (λ x. x) result reader.new
        (accepted_at 4 (stored.is_partition_order size order) Unread reader.old) }
    ensures few { IfOk result (λ exponent. exponent < 16) }
    ensures whole { IfOk result (λ exponent. size % 2 ^ exponent ≡ 0) }
    ensures enough { IfOk result (λ exponent. order < size / 2 ^ exponent) }
{
    let exponent = field(reader, 4)?;
    if !is_partition_order(size, order, exponent) {
        return Err(FlacWhy::Residual);
    }
    Ok(exponent)
}

/// The residuals of a block behind a warm-up of so many samples.
#[tactic(auto, unfolding(crate::specs::Residual::residual_at))]
pub(crate) fn residuals(
    reader: &mut BitReader<'_>,
    order: usize,
    out: &mut [i32],
) -> Result<(), FlacWhy>
    requires { length out.old + order < 2 ^ 32 }
    ensures { Reads (λ _. out.new) result reader.new
        (stored.residual_at order (length out.old + order) reader.old) }
{
    let size = out.len() + order;
    let method = method(reader)?;
    let exponent = partition_order(reader, size, order)?;
    partitions(
        reader,
        4 + method,
        size / (1 << exponent),
        order,
        1 << exponent,
        out,
    )
}

// A subframe: the samples of one channel.

ghost use Rattle.std.specs.Prelude.{◌≡◌, ◌+◌, ◌-◌, ◌^◌, ◌<◌, ◌≤◌, length, nat_lt, IfOk, OnOk, pos, ◌*ℤ◌, true};
ghost use Rattle.flac_frame.specs.Reading.{Reads, accepted_at, signed_at, each_at};
ghost use Rattle.flac_frame.specs.Subframe as kind;
ghost use Rattle.flac_frame.specs.declared.error.FlacWhy.TheVariants.{Subframe as Refused};
ghost use Rattle.flac_predict.specs.Samples.{AreInside, IsInside};
ghost use Rattle.flac_predict.specs.Linear.{IsLinearSet};

use crate::FlacWhy;
use crate::reading::{expected, field, signed, unary};
use crate::residual::{residuals, signed_values};
use cook_bits::BitReader;
use flac_predict::{LinearSet, restore_fixed, restore_linear};

fn is_kind(size: usize, code: u32) -> bool
    ensures { result ≡ kind.is_kind size code }
{
    if code < 2 {
        true
    } else if code < 32 {
        code >= 8 && code <= 12 && ((code - 8) as usize) < size
    } else {
        ((code - 31) as usize) < size
    }
}

#[tactic(auto, unfolding(crate::specs::Reading::accepted_at))]
fn kind_code(reader: &mut BitReader<'_>, size: usize) -> Result<u32, FlacWhy>
    ensures reads { Reads (λ x. x) result reader.new
        (accepted_at 6 (kind.is_kind size) Refused reader.old) }
    ensures kind { IfOk result (λ code. kind.is_kind size code ≡ true) }
    ensures few { IfOk result (λ code. code < 64) }
{
    let code = field(reader, 6)?;
    if !is_kind(size, code) {
        return Err(FlacWhy::Subframe);
    }
    Ok(code)
}

#[tactic(auto, unfolding(crate::specs::Subframe::wasted_at))]
fn wasted_bits(reader: &mut BitReader<'_>, depth: u32) -> Result<u32, FlacWhy>
    requires low { 1 ≤ depth }
    requires high { depth ≤ 25 }
    ensures reads { Reads (λ x. x) result reader.new (kind.wasted_at depth reader.old) }
    ensures fewer { IfOk result (λ wasted. wasted < depth) }
{
    if field(reader, 1)? == 0 {
        return Ok(0);
    }
    let less = unary(reader)?;
    if less >= depth - 1 {
        return Err(FlacWhy::Subframe);
    }
    Ok(less + 1)
}

#[tactic(auto, unfolding(crate::specs::Subframe::constant_at))]
fn constant(reader: &mut BitReader<'_>, depth: u32, out: &mut [i32]) -> Result<(), FlacWhy>
    requires { depth ≤ 25 }
    ensures reads { Reads (λ _. out.new) result reader.new
        (kind.constant_at depth (length out.old) reader.old) }
    ensures inside { OnOk result (AreInside depth out.new) }
{
    let sample = signed(reader, depth)?;
    out.fill(sample);
    Ok(())
}

#[tactic(auto, unfolding(crate::specs::Subframe::fixed_at))]
fn fixed(reader: &mut BitReader<'_>, order: u32, depth: u32, out: &mut [i32]) -> Result<(), FlacWhy>
    requires order { order ≤ 4 }
    requires low { 1 ≤ depth }
    requires high { depth ≤ 25 }
    requires enough { order < length out.old }
    requires few { length out.old < 2 ^ 32 }
    ensures reads { Reads (λ _. out.new) result reader.new
        (kind.fixed_at order depth (length out.old) reader.old) }
    ensures inside { OnOk result (AreInside depth out.new) }
{
    let (warm_up, rest) = out.split_at_mut(order as usize);
    signed_values(reader, depth, warm_up)?;
    residuals(reader, order as usize, rest)?;
    if !restore_fixed(order, out, depth) {
        return Err(FlacWhy::Range);
    }
    Ok(())
}

#[tactic(auto, unfolding(crate::specs::Reading::accepted_at))]
fn precision(reader: &mut BitReader<'_>) -> Result<u32, FlacWhy>
    ensures reads { Reads (λ x. x) result reader.new
        (accepted_at 4 (λ less. nat_lt less 15) Refused reader.old) }
    ensures few { IfOk result (λ less. less < 15) }
{
    let less = field(reader, 4)?;
    if less >= 15 {
        return Err(FlacWhy::Subframe);
    }
    Ok(less)
}

#[tactic(auto, unfolding(crate::specs::Reading::accepted_at))]
fn shift(reader: &mut BitReader<'_>) -> Result<u32, FlacWhy>
    ensures reads { Reads (λ x. x) result reader.new
        (accepted_at 5 (λ shift. nat_lt shift 16) Refused reader.old) }
    ensures few { IfOk result (λ shift. shift < 16) }
{
    let shift = field(reader, 5)?;
    if shift >= 16 {
        return Err(FlacWhy::Subframe);
    }
    Ok(shift)
}

#[tactic(auto, unfolding(crate::specs::Subframe::set_at))]
fn linear_set(reader: &mut BitReader<'_>, order: u32) -> Result<LinearSet, FlacWhy>
    requires low { 1 ≤ order }
    requires high { order ≤ 32 }
    ensures reads { Reads (λ x. x) result reader.new (kind.set_at order reader.old) }
    ensures set { IfOk result IsLinearSet }
    ensures order { IfOk result (λ set. set.order ≡ order) }
{
    let less = precision(reader)?;
    let shift = shift(reader)?;
    let mut coefficients = [0; 32];
    signed_values(reader, less + 1, &mut coefficients[..order as usize])?;
    Ok(LinearSet {
        order,
        precision: less + 1,
        shift,
        coefficients,
    })
}

#[tactic(auto, unfolding(crate::specs::Subframe::linear_at))]
fn linear(
    reader: &mut BitReader<'_>,
    order: u32,
    depth: u32,
    out: &mut [i32],
) -> Result<(), FlacWhy>
    requires some { 1 ≤ order }
    requires order { order ≤ 32 }
    requires low { 1 ≤ depth }
    requires high { depth ≤ 25 }
    requires enough { order < length out.old }
    requires few { length out.old < 2 ^ 32 }
    ensures reads { Reads (λ _. out.new) result reader.new
        (kind.linear_at order depth (length out.old) reader.old) }
    ensures inside { OnOk result (AreInside depth out.new) }
{
    let (warm_up, rest) = out.split_at_mut(order as usize);
    signed_values(reader, depth, warm_up)?;
    let set = linear_set(reader, order)?;
    residuals(reader, order as usize, rest)?;
    if !restore_linear(&set, out, depth) {
        return Err(FlacWhy::Range);
    }
    Ok(())
}

#[tactic(auto, unfolding(crate::specs::Subframe::content_at))]
fn content(
    reader: &mut BitReader<'_>,
    code: u32,
    depth: u32,
    out: &mut [i32],
) -> Result<(), FlacWhy>
    requires kind { kind.is_kind (length out.old) code ≡ true }
    requires code { code < 64 }
    requires low { 1 ≤ depth }
    requires high { depth ≤ 25 }
    requires few { length out.old < 2 ^ 32 }
    ensures reads { Reads (λ _. out.new) result reader.new
        (kind.content_at code depth (length out.old) reader.old) }
    ensures inside { OnOk result (AreInside depth out.new) }
{
    if code == 0 {
        constant(reader, depth, out)
    } else if code == 1 {
        signed_values(reader, depth, out)
    } else if code < 32 {
        fixed(reader, code - 8, depth, out)
    } else {
        linear(reader, code - 31, depth, out)
    }
}

// Puts the low bits that aren't set back.
fn put_wasted(wasted: u32, depth: u32, samples: &mut [i32])
    requires some { 1 ≤ depth }
    requires few { depth + wasted ≤ 25 }
    requires inside { AreInside depth samples.old }
    ensures { samples.new ≡ kind.with_wasted wasted samples.old }
{
    for place in 0..samples.len() {
        samples[place] = scaled(samples[place], wasted, depth);
    }
}

#[inline(always)]
fn scaled(sample: i32, wasted: u32, depth: u32) -> i32
    requires some { 1 ≤ depth }
    requires few { depth + wasted ≤ 25 }
    requires inside { IsInside depth sample }
    ensures { result ≡ sample *ℤ pos (2 ^ wasted) }
{
    sample * (1 << wasted)
}

/// The samples of a channel, of a depth.
#[tactic(auto, unfolding(crate::specs::Subframe::subframe_at))]
pub(crate) fn subframe(
    reader: &mut BitReader<'_>,
    depth: u32,
    out: &mut [i32],
) -> Result<(), FlacWhy>
    requires low { 1 ≤ depth }
    requires high { depth ≤ 25 }
    requires few { length out.old < 2 ^ 32 }
    ensures { Reads (λ _. out.new) result reader.new
        (kind.subframe_at depth (length out.old) reader.old) }
{
    expected(reader, 1, 0, FlacWhy::Subframe)?;
    let code = kind_code(reader, out.len())?;
    let wasted = wasted_bits(reader, depth)?;
    content(reader, code, depth - wasted, out)?;
    put_wasted(wasted, depth - wasted, out);
    Ok(())
}

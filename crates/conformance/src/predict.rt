// FLAC's predictors, and the choice among them.

ghost use Rattle.std.specs.Prelude.{◌≡◌, ◌-◌, ◌^◌, ◌≤◌, pos, IsTrue};
ghost use Rattle.flac_predict.specs.Samples.{AreInside};
ghost use Rattle.flac_predict.specs.Rice.{AreCodable};

use crate::stop::Stop;
use crate::{answer, parse};
use flac_predict::{
    Choice, LinearSet, bank, choose, residual_fixed, residual_linear, restore_fixed,
    restore_linear, rice_bits,
};
use std::alloc::Global;

/// The answer to a case of prediction, if the words are one: residuals, restored samples, the best parameter, the choice for
/// a channel.
pub fn answer_to(alloc: Global, words: &[&str]) -> Option<Result<String, Stop>> {
    Some(match words {
        ["residual_fixed", order, samples] => fixed_residuals(alloc, order, samples),
        ["residual_linear", set, samples] => linear_residuals(alloc, set, samples),
        ["bank", set] => set_of_bank(alloc, set),
        ["restore_fixed", order, bits, numbers] => fixed_restored(alloc, order, bits, numbers),
        ["restore_linear", set @ .., bits, numbers] => linear_restored(alloc, set, bits, numbers),
        ["rice", residuals] => rice(alloc, residuals),
        ["choice", bits, samples] => choice(alloc, bits, samples),
        _ => return None,
    })
}

// A set of linear predictors: its coefficients in front of zeros.
fn set_read(alloc: Global, words: &[&str]) -> Result<LinearSet, Stop> {
    let [precision, shift, word] = words else {
        return Err(Stop::Unreadable);
    };
    let written: Vec<i32> = parse::numbers(alloc, word)?;
    if written.len() > 32 {
        return Err(Stop::OutOfRange);
    }
    let mut coefficients = [0; 32];
    coefficients[..written.len()].copy_from_slice(written.as_slice());
    Ok(LinearSet {
        order: written.len() as u32,
        precision: parse::number(precision)?,
        shift: parse::number(shift)?,
        coefficients,
    })
}

// The least power of two that a number of so many bits is below.
fn limit_of(bits: u32) -> i64
    requires low { 1 ≤ bits }
    requires high { bits ≤ 25 }
    ensures { result ≡ pos (2 ^ (bits - 1)) }
{
    i64::from(1u32 << (bits - 1))
}

/// Whether the numbers are inside so many bits.
pub fn are_inside(numbers: &[i32], bits: u32) -> bool
    requires low { 1 ≤ bits }
    requires high { bits ≤ 25 }
    ensures { IsTrue result → AreInside bits numbers.now }
{
    let limit = limit_of(bits);
    for place in 0..numbers.len() {
        let number = i64::from(numbers[place]);
        if number < -limit || number >= limit {
            return false;
        }
    }
    true
}

// Whether a parameter can code the numbers: the least of 32 bits is none of them.
fn are_codable(numbers: &[i32]) -> bool
    ensures { IsTrue result → AreCodable numbers.now }
{
    for place in 0..numbers.len() {
        if numbers[place] == i32::MIN {
            return false;
        }
    }
    true
}

fn fixed_residuals(alloc: Global, order: &str, samples: &str) -> Result<String, Stop> {
    let order = parse::number(order)?;
    let samples: Vec<i32> = parse::numbers(alloc, samples)?;
    if order > 4 || samples.len() < order as usize || !are_inside(samples.as_slice(), 25) {
        return Err(Stop::OutOfRange);
    }
    let mut out = vec![in alloc; 0i32; samples.len() - order as usize]?;
    residual_fixed(order, samples.as_slice(), out.as_mut_slice());
    answer::numbers(alloc, out.as_slice())
}

fn linear_residuals(alloc: Global, number: &str, samples: &str) -> Result<String, Stop> {
    let number = parse::number(number)?;
    let samples: Vec<i32> = parse::numbers(alloc, samples)?;
    if number < 1 || number > 8 {
        return Err(Stop::OutOfRange);
    }
    let set = bank(number);
    if samples.len() < set.order as usize || !are_inside(samples.as_slice(), 25) {
        return Err(Stop::OutOfRange);
    }
    let mut out = vec![in alloc; 0i32; samples.len() - set.order as usize]?;
    residual_linear(&set, samples.as_slice(), out.as_mut_slice());
    answer::numbers(alloc, out.as_slice())
}

fn set_of_bank(alloc: Global, number: &str) -> Result<String, Stop> {
    let number = parse::number(number)?;
    if number < 1 || number > 8 {
        return Err(Stop::OutOfRange);
    }
    let LinearSet {
        order,
        precision,
        shift,
        coefficients,
    } = bank(number);
    let listed = answer::numbers(alloc, &coefficients[..order as usize])?;
    Ok(format!(in alloc; "{order} {precision} {shift} {listed}")?)
}

// The samples, or that one of them leaves its bits.
fn restored(alloc: Global, fits: bool, samples: &[i32]) -> Result<String, Stop> {
    if !fits {
        return Ok(String::from_str(alloc, "false")?);
    }
    answer::numbers(alloc, samples)
}

fn fixed_restored(alloc: Global, order: &str, bits: &str, numbers: &str) -> Result<String, Stop> {
    let (order, bits) = (parse::number(order)?, parse::number(bits)?);
    let mut numbers: Vec<i32> = parse::numbers(alloc, numbers)?;
    if order > 4 || bits < 1 || bits > 25 || numbers.len() < order as usize {
        return Err(Stop::OutOfRange);
    }
    if !are_inside(&numbers.as_slice()[..order as usize], bits) {
        return Err(Stop::OutOfRange);
    }
    let fits = restore_fixed(order, numbers.as_mut_slice(), bits);
    restored(alloc, fits, numbers.as_slice())
}

fn linear_restored(alloc: Global, set: &[&str], bits: &str, numbers: &str) -> Result<String, Stop> {
    let (set, bits) = (set_read(alloc, set)?, parse::number(bits)?);
    let mut numbers: Vec<i32> = parse::numbers(alloc, numbers)?;
    if set.order < 1 || set.order > 32 || set.shift > 15 || bits < 1 || bits > 25 {
        return Err(Stop::OutOfRange);
    }
    if set.precision < 1 || set.precision > 15 || numbers.len() < set.order as usize {
        return Err(Stop::OutOfRange);
    }
    if !are_inside(&set.coefficients[..set.order as usize], set.precision) {
        return Err(Stop::OutOfRange);
    }
    if !are_inside(&numbers.as_slice()[..set.order as usize], bits) {
        return Err(Stop::OutOfRange);
    }
    let fits = restore_linear(&set, numbers.as_mut_slice(), bits);
    restored(alloc, fits, numbers.as_slice())
}

fn rice(alloc: Global, residuals: &str) -> Result<String, Stop> {
    let residuals: Vec<i32> = parse::numbers(alloc, residuals)?;
    if residuals.len() > 4096 || !are_codable(residuals.as_slice()) {
        return Err(Stop::OutOfRange);
    }
    let (parameter, bits) = rice_bits(residuals.as_slice());
    Ok(format!(in alloc; "{parameter} {bits}")?)
}

fn choice(alloc: Global, bits: &str, samples: &str) -> Result<String, Stop> {
    let bits = parse::number(bits)?;
    let samples: Vec<i32> = parse::numbers(alloc, samples)?;
    if samples.is_empty() || samples.len() > 4096 || bits < 8 || bits > 25 {
        return Err(Stop::OutOfRange);
    }
    if !are_inside(samples.as_slice(), bits) {
        return Err(Stop::OutOfRange);
    }
    let mut work = vec![in alloc; 0i32; samples.len()]?;
    choice_told(alloc, choose(samples.as_slice(), bits, work.as_mut_slice()))
}

fn choice_told(alloc: Global, choice: Choice) -> Result<String, Stop> {
    match choice {
        Choice::Constant => Ok(String::from_str(alloc, "constant")?),
        Choice::Fixed { order, parameter } => {
            Ok(format!(in alloc; "fixed {order} {parameter}")?)
        }
        Choice::Linear { set, parameter } => Ok(format!(in alloc; "linear {set} {parameter}")?),
        Choice::Verbatim => Ok(String::from_str(alloc, "verbatim")?),
    }
}

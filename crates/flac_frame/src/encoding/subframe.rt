// A subframe as it is written: the samples of one channel by a choice.

ghost use Rattle.std.specs.Prelude.{◌≡◌, ◌^◌, ◌≤◌, ◌<◌, ◌++◌, length, OnOk};
ghost use Rattle.flac_frame.specs.Spelling.{residual_bits_of, set_bits, kind_of, content_bits, subframe_bits};
ghost use Rattle.flac_predict.specs.Samples.{AreInside};
ghost use Rattle.flac_predict.specs.Linear.{IsLinearSet};
ghost use Rattle.flac_predict.specs.Choice.{IsCandidate};
ghost use Rattle.flac_predict.specs.Bank.{bank_set};

use super::fields::{put_signed, put_values};
use cook_bits::{BitWriter, NoMemory};
use flac_predict::{Choice, LinearSet, bank, laws, residual_fixed, residual_linear};

// Residuals in one partition.
#[tactic(auto, unfolding(crate::specs::Spelling::residual_bits_of))]
fn put_residuals(writer: &mut BitWriter, residuals: &[i32], parameter: u32) -> Result<(), NoMemory>
    requires { parameter ≤ 30 }
    ensures { OnOk result (writer.new ≡ writer.old ++ residual_bits_of parameter residuals.now) }
{
    let method = if parameter <= 14 { 0 } else { 1 };
    writer.put(method, 2)?;
    writer.put(0, 4)?;
    writer.put(parameter, 4 + method)?;
    put_values(writer, residuals, parameter)
}

#[tactic(auto, unfolding(crate::specs::Spelling::set_bits))]
fn put_set(writer: &mut BitWriter, set: &LinearSet) -> Result<(), NoMemory>
    requires { IsLinearSet set.now }
    ensures { OnOk result (writer.new ≡ writer.old ++ set_bits set.now) }
{
    writer.put(set.precision - 1, 4)?;
    writer.put(set.shift, 5)?;
    put_signed(
        writer,
        &set.coefficients[..set.order as usize],
        set.precision,
    )
}

#[tactic(auto, unfolding(crate::specs::Spelling::content_bits))]
fn put_fixed(
    writer: &mut BitWriter,
    samples: &[i32],
    depth: u32,
    order: u32,
    parameter: u32,
    work: &mut [i32],
) -> Result<(), NoMemory>
    requires order { order ≤ 4 }
    requires enough { order < length samples.now }
    requires parameter { parameter ≤ 30 }
    requires low { 1 ≤ depth }
    requires high { depth ≤ 25 }
    requires samples { AreInside depth samples.now }
    requires wide { AreInside 25 samples.now }
    requires room { length work.old ≡ length samples.now }
    ensures { OnOk result (writer.new ≡ writer.old ++ content_bits depth samples.now (Choice.Fixed order parameter)) }
{
    let residuals = &mut work[..samples.len() - order as usize];
    residual_fixed(order, samples, residuals);
    put_signed(writer, &samples[..order as usize], depth)?;
    put_residuals(writer, residuals, parameter)
}

#[tactic(auto, unfolding(crate::specs::Spelling::content_bits))]
fn put_linear(
    writer: &mut BitWriter,
    samples: &[i32],
    depth: u32,
    number: u32,
    parameter: u32,
    work: &mut [i32],
) -> Result<(), NoMemory>
    requires first { 1 ≤ number }
    requires number { number ≤ 8 }
    requires enough { (bank_set number).order < length samples.now }
    requires parameter { parameter ≤ 30 }
    requires low { 1 ≤ depth }
    requires high { depth ≤ 25 }
    requires samples { AreInside depth samples.now }
    requires wide { AreInside 25 samples.now }
    requires room { length work.old ≡ length samples.now }
    ensures { OnOk result (writer.new ≡ writer.old ++ content_bits depth samples.now (Choice.Linear number parameter)) }
{
    let set = bank(number);
    let residuals = &mut work[..samples.len() - set.order as usize];
    residual_linear(&set, samples, residuals);
    put_signed(writer, &samples[..set.order as usize], depth)?;
    put_set(writer, &set)?;
    put_residuals(writer, residuals, parameter)
}

#[tactic(auto, unfolding(crate::specs::Spelling::content_bits))]
fn put_content(
    writer: &mut BitWriter,
    samples: &[i32],
    depth: u32,
    choice: Choice,
    work: &mut [i32],
) -> Result<(), NoMemory>
    requires some { 1 ≤ length samples.now }
    requires low { 1 ≤ depth }
    requires high { depth ≤ 25 }
    requires samples { AreInside depth samples.now }
    requires wide { AreInside 25 samples.now }
    requires candidate { IsCandidate samples.now choice }
    requires room { length work.old ≡ length samples.now }
    ensures { OnOk result (writer.new ≡ writer.old ++ content_bits depth samples.now choice) }
{
    match choice {
        Choice::Constant => put_signed(writer, &samples[..1], depth),
        Choice::Fixed { order, parameter } => put_fixed(
            writer, samples, depth, order, parameter, work,
        ),
        Choice::Linear { set, parameter } => put_linear(
            writer, samples, depth, set, parameter, work,
        ),
        Choice::Verbatim => put_signed(writer, samples, depth),
    }
}

fn kind_of(samples: &[i32], choice: Choice) -> u32
    requires { IsCandidate samples.now choice }
    ensures kind { result ≡ kind_of choice }
    ensures fits { result < 2 ^ 6 }
{
    match choice {
        Choice::Constant => 0,
        Choice::Fixed { order, .. } => 8 + order,
        Choice::Linear { set, .. } => 31 + bank(set).order,
        Choice::Verbatim => 1,
    }
}

/// A channel's samples by a choice.
#[tactic(auto, unfolding(crate::specs::Spelling::subframe_bits))]
pub(super) fn put_subframe(
    writer: &mut BitWriter,
    samples: &[i32],
    depth: u32,
    choice: Choice,
    work: &mut [i32],
) -> Result<(), NoMemory>
    requires some { 1 ≤ length samples.now }
    requires low { 1 ≤ depth }
    requires high { depth ≤ 25 }
    requires samples { AreInside depth samples.now }
    requires wide { AreInside 25 samples.now }
    requires candidate { IsCandidate samples.now choice }
    requires room { length work.old ≡ length samples.now }
    ensures { OnOk result (writer.new ≡ writer.old ++ subframe_bits depth samples.now choice) }
{
    writer.put(0, 1)?;
    writer.put(kind_of(samples, choice), 6)?;
    writer.put(0, 1)?;
    put_content(writer, samples, depth, choice, work)
}

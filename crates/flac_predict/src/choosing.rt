// The writer's choice for one channel.

ghost use Rattle.std.specs.Prelude.{◌≡◌, ◌+◌, ◌*◌, ◌≤◌, ◌<◌, ◌++◌, [], length};
ghost use Rattle.flac_predict.specs.Samples.{AreInside, sample_at};
ghost use Rattle.flac_predict.specs.Fixed.{fixed_residuals};
ghost use Rattle.flac_predict.specs.Linear.{linear_residuals};
ghost use Rattle.flac_predict.specs.Bank.{bank_set};
ghost use Rattle.flac_predict.specs.Rice.{best_parameter, residual_bits, AreCodable};
ghost use Rattle.flac_predict.specs.Choice.{best_candidate, candidate_bits, IsCandidate, all_are, constant_offer, fixed_offers, linear_offers};
ghost use Rattle.flac_predict.specs.Weighing.{Holds, IsOffer, IsPricing, IsOfOrder, lighter_of};

use crate::linear::sum_of_set;
use crate::rice::{guess, rice_near, shifted_sum, sum_reaching};
use crate::{LinearSet, bank, residual_fixed, rice_bits};

/// How a channel's samples are put into a subframe (RFC 9639, section 9.2).
#[derive(Clone, Copy, Debug, Drop, PartialEq, Eq)]
pub enum Choice {
    /// One sample, which all are equal to.
    Constant,
    /// The residuals of a fixed predictor, with a parameter.
    Fixed { order: u32, parameter: u32 },
    /// The residuals of the bank's set of a number, with a parameter.
    Linear { set: u32, parameter: u32 },
    /// The samples themselves.
    Verbatim,
}

/// A choice, and the bits of its whole subframe.
#[derive(Clone, Copy, Debug, Drop, PartialEq, Eq)]
pub struct Weighed {
    /// The choice.
    pub choice: Choice,
    /// The bits of the subframe, its header included.
    pub bits: u64,
}

/// The candidate whose subframe has the fewest bits, the first of these on a tie. The 1 to 4,096 samples are inside
/// `bits`, which is 8 to 25, and `work` is as long as `samples`. It takes no memory.
pub fn choose(samples: &[i32], bits: u32, work: &mut [i32]) -> Choice
    requires some { 1 ≤ length samples.now }
    requires count { length samples.now ≤ 4096 }
    requires low { 8 ≤ bits }
    requires high { bits ≤ 25 }
    requires samples { AreInside bits samples.now }
    requires room { length work.old ≡ length samples.now }
    ensures choice { result ≡ best_candidate bits samples.now }
    ensures candidate { IsCandidate samples.now result }
{
    weigh(samples, bits, work).choice
}

/// The same, with the bits of its subframe: at most 8 more than the samples themselves take.
pub fn weigh(samples: &[i32], bits: u32, work: &mut [i32]) -> Weighed
    requires some { 1 ≤ length samples.now }
    requires count { length samples.now ≤ 4096 }
    requires low { 8 ≤ bits }
    requires high { bits ≤ 25 }
    requires samples { AreInside bits samples.now }
    requires room { length work.old ≡ length samples.now }
    ensures choice { result.choice ≡ best_candidate bits samples.now }
    ensures bits { result.bits ≡ candidate_bits bits samples.now result.choice }
    ensures candidate { IsCandidate samples.now result.choice }
    ensures most { result.bits ≤ 8 + length samples.now * bits }
{
    let likely = likely(samples, bits, work);
    let held = nothing_held(samples, bits, likely);
    let held = with_constant(held, samples, bits);
    let held = with_fixed(held, likely, samples, bits, work);
    let held = with_linear(held, samples, bits, work);
    let verbatim = Weighed {
        choice: Choice::Verbatim,
        bits: 8 + samples.len() as u64 * bits as u64,
    };
    lighter(held, verbatim)
}

// The one that is held, unless the next takes fewer bits.
fn lighter(held: Weighed, next: Weighed) -> Weighed
    ensures { result ≡ lighter_of held next }
{
    if next.bits < held.bits { next } else { held }
}

// A fixed order, and its offer.
#[derive(Clone, Copy, Drop)]
struct FixedOffer {
    order: u32,
    offer: Weighed,
}

// A fixed order whose residuals are small, as far as the first samples tell.
fn likely_order(samples: &[i32], work: &mut [i32]) -> u32
    requires some { 1 ≤ length samples.now }
    requires count { length samples.now ≤ 4096 }
    requires samples { AreInside 25 samples.now }
    requires room { length work.old ≡ length samples.now }
    ensures order { result ≤ 4 }
    ensures enough { result < length samples.now }
{
    let first = &samples[..samples.len().min(512)];
    let mut likely = 0;
    let mut least = u64::MAX;
    for order in 0..5u32 {
        if first.len() <= order as usize {
            return likely;
        }
        let sum = first_sum(order, first, work);
        if sum < least {
            likely = order;
            least = sum;
        }
    }
    likely
}

// The sum of an order's residuals.
fn first_sum(order: u32, samples: &[i32], work: &mut [i32]) -> u64
    requires order { order ≤ 4 }
    requires enough { order < length samples.now }
    requires count { length samples.now ≤ 4096 }
    requires samples { AreInside 25 samples.now }
    requires room { length samples.now ≤ length work.old }
{
    let residuals = &mut work[..samples.len() - order as usize];
    residual_fixed(order, samples, residuals);
    shifted_sum(residuals, 0)
}

// The offer of a fixed order that is likely to have few bits.
fn likely(samples: &[i32], bits: u32, work: &mut [i32]) -> FixedOffer
    requires some { 1 ≤ length samples.now }
    requires count { length samples.now ≤ 4096 }
    requires high { bits ≤ 25 }
    requires samples { AreInside 25 samples.now }
    requires room { length work.old ≡ length samples.now }
    ensures { IsOfOrder bits samples.now result.order result.offer }
{
    let order = likely_order(samples, work);
    let residuals = &mut work[..samples.len() - order as usize];
    residual_fixed(order, samples, residuals);
    let (parameter, rice) = rice_bits(residuals);
    FixedOffer {
        order,
        offer: Weighed {
            choice: Choice::Fixed { order, parameter },
            bits: 8 + order as u64 * bits as u64 + rice,
        },
    }
}

// What is held before the first offer: it has more bits than the best candidate.
fn nothing_held(samples: &[i32], bits: u32, likely: FixedOffer) -> Weighed
    requires count { length samples.now ≤ 4096 }
    requires high { bits ≤ 25 }
    requires likely { IsOfOrder bits samples.now likely.order likely.offer }
    ensures { Holds bits samples.now result [] }
{
    let verbatim = 8 + samples.len() as u64 * bits as u64;
    Weighed {
        choice: Choice::Verbatim,
        bits: verbatim.min(likely.offer.bits) + 1,
    }
}

// Whether all samples are equal.
fn are_equal(samples: &[i32]) -> bool
    requires { 1 ≤ length samples.now }
    ensures { result ≡ all_are (sample_at samples.now 0) samples.now }
{
    let first = samples[0];
    for sample in samples {
        if *sample != first {
            return false;
        }
    }
    true
}

fn with_constant(held: Weighed, samples: &[i32], bits: u32) -> Weighed
    requires some { 1 ≤ length samples.now }
    requires high { bits ≤ 25 }
    requires held { Holds bits samples.now held [] }
    ensures { Holds bits samples.now result (constant_offer samples.now) }
{
    if !are_equal(samples) {
        return held;
    }
    let constant = Weighed {
        choice: Choice::Constant,
        bits: 8 + bits as u64,
    };
    lighter(held, constant)
}

// The offers of the fixed orders behind what is held.
fn with_fixed(
    held: Weighed,
    likely: FixedOffer,
    samples: &[i32],
    bits: u32,
    work: &mut [i32],
) -> Weighed
    requires count { length samples.now ≤ 4096 }
    requires high { bits ≤ 25 }
    requires samples { AreInside 25 samples.now }
    requires room { length work.old ≡ length samples.now }
    requires likely { IsOfOrder bits samples.now likely.order likely.offer }
    requires held { Holds bits samples.now held (constant_offer samples.now) }
    ensures { Holds bits samples.now result (constant_offer samples.now ++ fixed_offers samples.now 5) }
{
    let mut held = held;
    for order in 0..5u32 {
        held = with_order(held, likely, order, samples, bits, work);
    }
    held
}

fn with_order(
    held: Weighed,
    likely: FixedOffer,
    order: u32,
    samples: &[i32],
    bits: u32,
    work: &mut [i32],
) -> Weighed
    requires order { order ≤ 4 }
    requires count { length samples.now ≤ 4096 }
    requires high { bits ≤ 25 }
    requires samples { AreInside 25 samples.now }
    requires room { length work.old ≡ length samples.now }
    requires likely { IsOfOrder bits samples.now likely.order likely.offer }
    requires held { Holds bits samples.now held (constant_offer samples.now ++ fixed_offers samples.now order) }
    ensures { Holds bits samples.now result (constant_offer samples.now ++ fixed_offers samples.now (order + 1)) }
{
    if samples.len() <= order as usize {
        return held;
    }
    if order == likely.order {
        return lighter(held, likely.offer);
    }
    match fixed(held, order, samples, bits, work) {
        None => held,
        Some(next) => lighter(held, next),
    }
}

// The offer of a fixed order, or none where what is held has no more bits.
fn fixed(held: Weighed, order: u32, samples: &[i32], bits: u32, work: &mut [i32]) -> Option<Weighed>
    requires light { held.bits ≤ 200000 }
    requires order { order ≤ 4 }
    requires enough { order < length samples.now }
    requires count { length samples.now ≤ 4096 }
    requires high { bits ≤ 25 }
    requires samples { AreInside 25 samples.now }
    requires room { length work.old ≡ length samples.now }
    ensures { IsOffer bits samples.now held (Choice.Fixed order (best_parameter (fixed_residuals order samples.now))) result }
{
    let residuals = &mut work[..samples.len() - order as usize];
    residual_fixed(order, samples, residuals);
    let (parameter, bits) = offered(held, residuals, 8 + order as u64 * bits as u64)?;
    Some(Weighed {
        choice: Choice::Fixed { order, parameter },
        bits,
    })
}

// The best parameter of residuals, and their bits behind a head of so many; none where what is held surely has no more.
fn offered(held: Weighed, residuals: &[i32], head: u64) -> Option<(u32, u64)>
    requires light { held.bits ≤ 200000 }
    requires count { length residuals.now ≤ 4096 }
    requires codable { AreCodable residuals.now }
    requires head { head ≤ 10000 }
    ensures { IsPricing held head residuals.now result }
{
    let sum = shifted_sum(residuals, 0);
    let count = residuals.len() as u64;
    if sum >= sum_reaching(held.bits.saturating_sub(head), count) {
        return None;
    }
    let (parameter, bits) = rice_near(residuals, guess(sum, count));
    Some((parameter, head + bits))
}

// The offers of the bank's sets behind what is held.
fn with_linear(held: Weighed, samples: &[i32], bits: u32, work: &mut [i32]) -> Weighed
    requires count { length samples.now ≤ 4096 }
    requires high { bits ≤ 25 }
    requires samples { AreInside 25 samples.now }
    requires room { length work.old ≡ length samples.now }
    requires held { Holds bits samples.now held (constant_offer samples.now ++ fixed_offers samples.now 5) }
    ensures { Holds bits samples.now result
        (constant_offer samples.now ++ fixed_offers samples.now 5 ++ linear_offers samples.now 8) }
{
    let mut held = held;
    for before in 0..8u32 {
        held = with_set(held, before, samples, bits, work);
    }
    held
}

fn with_set(held: Weighed, before: u32, samples: &[i32], bits: u32, work: &mut [i32]) -> Weighed
    requires before { before < 8 }
    requires count { length samples.now ≤ 4096 }
    requires high { bits ≤ 25 }
    requires samples { AreInside 25 samples.now }
    requires room { length work.old ≡ length samples.now }
    requires held { Holds bits samples.now held
        (constant_offer samples.now ++ fixed_offers samples.now 5 ++ linear_offers samples.now before) }
    ensures { Holds bits samples.now result
        (constant_offer samples.now ++ fixed_offers samples.now 5 ++ linear_offers samples.now (before + 1)) }
{
    let set = bank(before + 1);
    if samples.len() <= set.order as usize {
        return held;
    }
    match linear(held, before + 1, &set, samples, bits, work) {
        None => held,
        Some(next) => lighter(held, next),
    }
}

// The offer of a set, or none where what is held has no more bits.
fn linear(
    held: Weighed,
    number: u32,
    set: &LinearSet,
    samples: &[i32],
    bits: u32,
    work: &mut [i32],
) -> Option<Weighed>
    requires light { held.bits ≤ 200000 }
    requires low { 1 ≤ number }
    requires number { number ≤ 8 }
    requires set { set.now ≡ bank_set number }
    requires enough { set.now.order < length samples.now }
    requires count { length samples.now ≤ 4096 }
    requires high { bits ≤ 25 }
    requires samples { AreInside 25 samples.now }
    requires room { length work.old ≡ length samples.now }
    ensures { IsOffer bits samples.now held (Choice.Linear number (best_parameter (linear_residuals set.now samples.now))) result }
{
    let residuals = &mut work[..samples.len() - set.order as usize];
    let head = 17 + set.order as u64 * bits as u64 + set.order as u64 * set.precision as u64;
    let (parameter, bits) = offered_by(held, number, set.order, samples, residuals, head)?;
    Some(Weighed {
        choice: Choice::Linear {
            set: number,
            parameter,
        },
        bits,
    })
}

// The best parameter of a set's residuals, and their bits behind a head of so many; none where what is held surely has no
// more. The residuals stand in `out` then.
fn offered_by(
    held: Weighed,
    number: u32,
    order: u32,
    samples: &[i32],
    out: &mut [i32],
    head: u64,
) -> Option<(u32, u64)>
    requires light { held.bits ≤ 200000 }
    requires low { 1 ≤ number }
    requires number { number ≤ 8 }
    requires order { order ≡ (bank_set number).order }
    requires count { length samples.now ≤ 4096 }
    requires samples { AreInside 25 samples.now }
    requires room { length out.old + order ≡ length samples.now }
    requires head { head ≤ 10000 }
    ensures { IsPricing held head (linear_residuals (bank_set number) samples.now) result }
{
    let count = out.len() as u64;
    let most = sum_reaching(held.bits.saturating_sub(head), count);
    let sum = sum_of_set(number, order as usize, samples, out, most)?;
    let (parameter, bits) = rice_near(out, guess(sum, count));
    Some((parameter, head + bits))
}

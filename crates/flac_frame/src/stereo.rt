// Left and right of two channels that are stored.

ghost use Rattle.std.specs.Prelude.{◌≡◌, ◌*◌, ◌≤◌, length};
ghost use Rattle.flac_frame.specs.Reading.{Gives};
ghost use Rattle.flac_frame.specs.Samples.{stretches};
ghost use Rattle.flac_frame.specs.Frame as whole;
ghost use Rattle.flac_predict.specs.Samples.{IsInside, is_inside};

use crate::FlacWhy;

fn right_of(mid: i64, side: i64) -> i64
    requires first { IsInside 32 mid }
    requires second { IsInside 32 side }
    ensures right { result ≡ whole.right_of mid side }
    ensures small { IsInside 34 result }
{
    mid - (side >> 1)
}

fn left_by(code: u32, first: i64, second: i64) -> i64
    requires first { IsInside 32 first }
    requires second { IsInside 32 second }
    ensures { result ≡ whole.left_by code first second }
{
    if code == 8 {
        first
    } else if code == 9 {
        first + second
    } else {
        right_of(first, second) + second
    }
}

fn right_by(code: u32, first: i64, second: i64) -> i64
    requires first { IsInside 32 first }
    requires second { IsInside 32 second }
    ensures { result ≡ whole.right_by code first second }
{
    if code == 8 {
        first - second
    } else if code == 9 {
        second
    } else {
        right_of(first, second)
    }
}

#[tactic(auto, unfolding(flac_predict::specs::Samples::is_inside))]
fn is_inside(sample: i64, bits: u32) -> bool
    requires low { 1 ≤ bits }
    requires high { bits ≤ 24 }
    ensures { result ≡ is_inside bits sample }
{
    let limit = 1i64 << (bits - 1);
    -limit <= sample && sample < limit
}

// The sample in 32 bits, if it is inside its bits.
#[tactic(auto, unfolding(crate::specs::Frame::narrowed))]
fn narrowed(sample: i64, bits: u32) -> Option<i32>
    requires low { 1 ≤ bits }
    requires high { bits ≤ 24 }
    ensures { result ≡ whole.narrowed bits sample }
{
    if !is_inside(sample, bits) {
        return None;
    }
    Some(sample as i32)
}

#[derive(Clone, Copy, Debug, Drop)]
struct Pair {
    left: i32,
    right: i32,
}

fn both(left: Option<i32>, right: Option<i32>) -> Result<Pair, FlacWhy>
    ensures { result ≡ whole.both left right }
{
    match (left, right) {
        (Some(left), Some(right)) => Ok(Pair { left, right }),
        _ => Err(FlacWhy::Range),
    }
}

// The left and the right sample of two that are stored.
#[tactic(auto, unfolding(crate::specs::Frame::pair_of))]
fn pair_of(code: u32, bits: u32, first: i32, second: i32) -> Result<Pair, FlacWhy>
    requires low { 1 ≤ bits }
    requires high { bits ≤ 24 }
    ensures { Gives (λ x. x) result (whole.pair_of code bits first second) }
{
    let one = first as i64;
    let other = second as i64;
    let left = narrowed(left_by(code, one, other), bits);
    let right = narrowed(right_by(code, one, other), bits);
    both(left, right)
}

// The left and the right samples of two channels that are stored.
fn stereo(code: u32, bits: u32, first: &mut [i32], second: &mut [i32]) -> Result<(), FlacWhy>
    requires low { 1 ≤ bits }
    requires high { bits ≤ 24 }
    requires same { length first.old ≡ length second.old }
    ensures { Gives (λ _. (first.new, second.new)) result
        (whole.stereo_of code bits first.old second.old) }
{
    for place in 0..first.len() {
        let pair = pair_of(code, bits, first[place], second[place])?;
        first[place] = pair.left;
        second[place] = pair.right;
    }
    Ok(())
}

#[tactic(auto, unfolding(crate::specs::Frame::decorrelated))]
pub(crate) fn decorrelate(
    code: u32,
    bits: u32,
    size: usize,
    room: usize,
    count: usize,
    samples: &mut [i32],
) -> Result<(), FlacWhy>
    requires low { 1 ≤ bits }
    requires high { bits ≤ 24 }
    requires within { size ≤ room }
    requires room { length samples.old ≡ count * room }
    requires two { 8 ≤ code → count ≡ 2 }
    ensures { Gives (λ _. stretches room size samples.new count) result
        (whole.decorrelated code bits (stretches room size samples.old count)) }
{
    if code < 8 {
        return Ok(());
    }
    let (left_room, right_room) = samples.split_at_mut(room);
    let (first, _) = left_room.split_at_mut(size);
    let (second, _) = right_room.split_at_mut(size);
    stereo(code, bits, first, second)
}

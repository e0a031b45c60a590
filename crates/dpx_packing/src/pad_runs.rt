// The maximal runs of a list of pads: how many there are, and how long the first is.

ghost use Rattle.std.specs.Prelude.{◌≡◌, ◌≢◌, ◌+◌, ◌-◌, ◌∷◌, ◌<◌, ◌≤◌, IsTrue, drop, length, replicate, slice_index, take};
ghost use Rattle.dpx_packing.specs.PadForms.{runs_of};

// So many places are counted in one byte, or compared with a value, which LLVM does for sixteen at once.
const BLOCK: usize = 128;

// A run of fewer pads is found one at a time: a block would cost more.
const SHORT: usize = 32;

/// How many runs the list has.
#[tactic(auto, using(crate::proofs::PadRuns::run_counts))]
pub fn run_count(pads: &[u8]) -> usize
    ensures exact { result ≡ length (runs_of pads.now) }
    ensures high { result ≤ length pads.now }
{
    if pads.is_empty() {
        return 0;
    }
    let mut count = 1;
    let mut at = 1;
    while at < pads.len() {
        let to = pads.len().min(at + BLOCK);
        count += changes(pads, at, to) as usize;
        at = to;
    }
    count
}

// How many runs begin from one place on and before another.
#[tactic(auto, using(crate::proofs::PadRuns::run_counts))]
fn changes(pads: &[u8], from: usize, to: usize) -> u8
    requires low { 1 ≤ from }
    requires order { from ≤ to }
    requires high { to ≤ length pads.now }
    requires few { to ≤ from + 128 }
    ensures exact { length (runs_of (take to pads.now)) ≡ length (runs_of (take from pads.now)) + result }
    ensures most { result ≤ to - from }
{
    let mut count = 0;
    for i in from..to {
        if pads[i] != pads[i - 1] {
            count += 1;
        }
    }
    count
}

// Whether a stretch of this value that ends at one place goes on to another. It looks at each pad between
// them, since a loop that ends early compares one at a time.
fn goes_on(pads: &[u8], value: u8, from: usize, to: usize) -> bool
    requires order { from ≤ to }
    requires high { to ≤ length pads.now }
    requires before { take from pads.now ≡ replicate from value }
    ensures { IsTrue result → take to pads.now ≡ replicate to value }
{
    let mut same = true;
    for i in from..to {
        if pads[i] != value {
            same = false;
        }
    }
    same
}

// How far a stretch of this value goes on, from one place and at most to another, one pad at a time.
fn stretch_end(pads: &[u8], value: u8, from: usize, to: usize) -> usize
    requires order { from ≤ to }
    requires high { to ≤ length pads.now }
    requires before { take from pads.now ≡ replicate from value }
    ensures same { take result pads.now ≡ replicate result value }
    ensures low { from ≤ result }
    ensures high { result ≤ to }
    ensures ends { result < to → slice_index pads.now result ≢ value }
{
    let mut end = from;
    while end < to && pads[end] == value {
        end += 1;
    }
    end
}

// As far as it goes on by whole blocks.
fn block_end(pads: &[u8], value: u8, from: usize) -> usize
    requires high { from ≤ length pads.now }
    requires before { take from pads.now ≡ replicate from value }
    ensures same { take result pads.now ≡ replicate result value }
    ensures low { from ≤ result }
    ensures high { result ≤ length pads.now }
{
    let mut end = from;
    while pads.len() - end >= BLOCK && goes_on(pads, value, end, end + BLOCK) {
        end += BLOCK;
    }
    end
}

/// How long the first run is.
#[tactic(auto, using(crate::proofs::PadRuns::first_run_is))]
pub fn first_run(pads: &[u8]) -> usize
    requires { 0 < length pads.now }
    ensures exact { runs_of pads.now ≡ record { times = result; value = slice_index pads.now 0 } ∷ runs_of (drop result pads.now) }
    ensures low { 1 ≤ result }
    ensures high { result ≤ length pads.now }
{
    let value = pads[0];
    let first = stretch_end(pads, value, 1, pads.len().min(SHORT));
    if first < SHORT {
        return first;
    }
    let blocks = block_end(pads, value, first);
    stretch_end(pads, value, blocks, pads.len())
}

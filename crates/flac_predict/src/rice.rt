// How many bits residuals take (RFC 9639, section 9.2.7).

ghost use Rattle.std.specs.Prelude.{◌≡◌, ℕ, suc, ◌+◌, ◌*◌, ◌/◌, ◌^◌, ◌<◌, ◌≤◌, length};
ghost use Rattle.std.specs.List.{sum_by};
ghost use Rattle.flac_predict.specs.Samples.{AreInside};
ghost use Rattle.flac_predict.specs.Rice.{zigzag, quotient, parameter_bits, residual_bits, best_parameter, AreCodable};

/// The parameter from 0 to 30 with which at most 4,096 residuals above -2^31 take the fewest bits, the least of these on a
/// tie, and the bits: those of the method, the partition order, the parameter and the values. It takes no memory.
pub fn rice_bits(residuals: &[i32]) -> (u32, u64)
    requires count { length residuals.now ≤ 4096 }
    requires codable { AreCodable residuals.now }
    ensures parameter { result.0 ≡ best_parameter residuals.now }
    ensures bits { result.1 ≡ residual_bits result.0 residuals.now }
    ensures within { result.0 ≤ 30 }
    ensures most { result.1 < 2 ^ 46 }
{
    let sum = shifted_sum(residuals, 0);
    rice_near(residuals, guess(sum, residuals.len() as u64))
}

// The same from a parameter on that is near.
pub(crate) fn rice_near(residuals: &[i32], parameter: u32) -> (u32, u64)
    requires count { length residuals.now ≤ 4096 }
    requires codable { AreCodable residuals.now }
    requires within { parameter ≤ 30 }
    ensures parameter { result.0 ≡ best_parameter residuals.now }
    ensures bits { result.1 ≡ residual_bits result.0 residuals.now }
    ensures within { result.0 ≤ 30 }
    ensures most { result.1 < 2 ^ 46 }
{
    let (parameter, bits) = climbed(residuals, parameter);
    descended(residuals, parameter, bits)
}

// The first parameter from here on behind which the bits don't fall, and these bits.
fn climbed(residuals: &[i32], parameter: u32) -> (u32, u64)
    requires count { length residuals.now ≤ 4096 }
    requires codable { AreCodable residuals.now }
    requires within { parameter ≤ 30 }
    ensures within { result.0 ≤ 30 }
    ensures bits { result.1 ≡ residual_bits result.0 residuals.now }
    ensures most { result.1 < 2 ^ 46 }
    ensures up { result.0 < 30 → residual_bits result.0 residuals.now ≤ residual_bits (suc result.0) residuals.now }
{
    let mut bits = bits_under(residuals, parameter);
    let count = residuals.len() as u64;
    for at in parameter..30 {
        if bits <= 10 + count * (at as u64 + 2) {
            return (at, bits);
        }
        let next = bits_under(residuals, at + 1);
        if bits <= next {
            return (at, bits);
        }
        bits = next;
    }
    (30, bits)
}

// The last parameter down from here before which the bits are more, and these bits.
fn descended(residuals: &[i32], parameter: u32, bits: u64) -> (u32, u64)
    requires count { length residuals.now ≤ 4096 }
    requires codable { AreCodable residuals.now }
    requires within { parameter ≤ 30 }
    requires bits { bits ≡ residual_bits parameter residuals.now }
    requires most { bits < 2 ^ 46 }
    requires up { parameter < 30 → residual_bits parameter residuals.now ≤ residual_bits (suc parameter) residuals.now }
    ensures parameter { result.0 ≡ best_parameter residuals.now }
    ensures bits { result.1 ≡ residual_bits result.0 residuals.now }
    ensures within { result.0 ≤ 30 }
    ensures most { result.1 < 2 ^ 46 }
{
    let mut at = parameter;
    let mut bits = bits;
    let count = residuals.len() as u64;
    while at > 0 {
        if 12 + count * (at as u64 + 2) < bits {
            return (at, bits);
        }
        let before = bits_under(residuals, at - 1);
        if bits < before {
            return (at, bits);
        }
        at -= 1;
        bits = before;
    }
    (0, bits)
}

// A parameter that is near the best one for so many residuals of this sum.
pub(crate) fn guess(sum: u64, count: u64) -> u32
    requires sum { sum ≤ 2 ^ 44 }
    requires count { count ≤ 4096 }
    ensures { result ≤ 30 }
{
    let mean = sum / (count + 1);
    (mean + 1).ilog2().min(30)
}

// A sum from which on so many residuals take at least so many bits under any parameter.
pub(crate) fn sum_reaching(bits: u64, count: u64) -> u64
    requires bits { bits ≤ 200000 }
    requires count { count ≤ 4096 }
    ensures { (sum k : ℕ) → result ≤ sum → k ≤ 30 → bits ≤ 10 + count * k + (sum + count) / 2 ^ k }
{
    let mut reaching = 0u64;
    for at in 0..31u32 {
        let rest = bits.saturating_sub(10 + count * at as u64);
        reaching = reaching.max(rest << at);
    }
    reaching.saturating_sub(count)
}

// The bits under a parameter.
fn bits_under(residuals: &[i32], parameter: u32) -> u64
    requires count { length residuals.now ≤ 4096 }
    requires codable { AreCodable residuals.now }
    requires within { parameter ≤ 30 }
    ensures bits { result ≡ residual_bits parameter residuals.now }
    ensures small { result < 2 ^ 46 }
{
    let sum = shifted_sum(residuals, parameter);
    6 + field_bits(parameter) + (sum + residuals.len() as u64 * (1 + parameter as u64))
}

// The bits of a parameter's field.
fn field_bits(parameter: u32) -> u64
    ensures field { result ≡ parameter_bits parameter }
    ensures small { result ≤ 5 }
{
    if parameter <= 14 { 4 } else { 5 }
}

// The sum of the quotients. What each holds of 2^16 and what is left of it are added apart, so that sums of 32 bits do.
pub(crate) fn shifted_sum(residuals: &[i32], parameter: u32) -> u64
    requires count { length residuals.now ≤ 4096 }
    requires codable { AreCodable residuals.now }
    requires within { parameter ≤ 30 }
    ensures sum { result ≡ sum_by (quotient parameter) residuals.now }
    ensures small { result ≤ 4294967296 * length residuals.now }
{
    let mut low = 0u32;
    let mut high = 0u32;
    for residual in residuals {
        let quotient = zigzag_of(*residual) >> parameter;
        low += quotient % 65536;
        high += quotient / 65536;
    }
    high as u64 * 65536 + low as u64
}

// A residual as a number that isn't negative.
#[inline(always)]
fn zigzag_of(residual: i32) -> u32
    ensures { result ≡ zigzag residual }
{
    let twice = 2 * residual as i64;
    if residual < 0 {
        (-1 - twice) as u32
    } else {
        twice as u32
    }
}

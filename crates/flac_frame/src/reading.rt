// Fields of bits, one after another.

ghost use Rattle.std.specs.Prelude.{◌≡◌, ◌^◌, ◌<◌, ◌≤◌, ◌==◌, IfOk, length};
ghost use Rattle.flac_frame.specs.Reading.{Reads, Passes, counted, field_at, expected_at, signed_at, unary_at, each_at, signed_number};
ghost use Rattle.flac_predict.specs.Samples.{IsInside, AreInside};

use crate::FlacWhy;
use cook_bits::BitReader;

#[inline(always)]
#[tactic(auto, unfolding(crate::specs::Reading::field_at))]
pub(crate) fn field(reader: &mut BitReader<'_>, count: u32) -> Result<u32, FlacWhy>
    requires { count ≤ 32 }
    ensures reads { Reads (λ x. x) result reader.new (field_at count reader.old) }
    ensures fits { IfOk result (λ value. value < 2 ^ count) }
{
    match reader.take(count) {
        Some(value) => Ok(value),
        None => Err(FlacWhy::Short),
    }
}

// A field that has one value.
#[tactic(auto, unfolding(crate::specs::Reading::expected_at))]
pub(crate) fn expected(
    reader: &mut BitReader<'_>,
    count: u32,
    value: u32,
    why: FlacWhy,
) -> Result<(), FlacWhy>
    requires { count ≤ 32 }
    ensures { Passes result reader.new (expected_at count value why reader.old) }
{
    if field(reader, count)? == value {
        Ok(())
    } else {
        Err(why)
    }
}

// A number in unary, counted in 32 bits.
#[inline(always)]
#[tactic(auto, unfolding(crate::specs::Reading::unary_at))]
pub(crate) fn unary(reader: &mut BitReader<'_>) -> Result<u32, FlacWhy>
    ensures { Reads (λ x. x) result reader.new (counted (unary_at reader.old)) }
{
    match reader.take_unary() {
        Some(count) => Ok(count),
        None => Err(FlacWhy::Short),
    }
}

// So many bits in two's complement.
#[inline(always)]
fn signed_number(number: u32, count: u32) -> i32
    requires few { count ≤ 31 }
    requires fits { number < 2 ^ count }
    ensures number { result ≡ signed_number count number }
    ensures inside { IsInside count result }
{
    let all = 1u32 << count;
    if 2 * number < all {
        number as i32
    } else {
        -1 - (all - 1 - number) as i32
    }
}

#[inline(always)]
#[tactic(auto, unfolding(crate::specs::Reading::signed_at))]
pub(crate) fn signed(reader: &mut BitReader<'_>, count: u32) -> Result<i32, FlacWhy>
    requires { count ≤ 31 }
    ensures reads { Reads (λ x. x) result reader.new (signed_at count reader.old) }
    ensures inside { IfOk result (λ number. IsInside count number) }
{
    let number = field(reader, count)?;
    Ok(signed_number(number, count))
}

// Fields of bits as they are written.

ghost use Rattle.std.specs.Prelude.{◌≡◌, ◌/◌, ◌%◌, ◌^◌, ◌<◌, ◌≤◌, ◌++◌, IfOk, OnOk};
ghost use Rattle.cook_bits.specs.Bits.{low_bits};
ghost use Rattle.flac_frame.specs.Spelling.{signed_field, signed_bits, unary_bits, rice_code, values_bits, value_bits_of};
ghost use Rattle.flac_predict.specs.Samples.{IsInside, AreInside};
ghost use Rattle.flac_predict.specs.Rice.{zigzag};

use cook_bits::{BitWriter, NoMemory};

// The number of a field in two's complement.
fn signed_field(value: i32, count: u32) -> u32
    requires low { 1 ≤ count }
    requires few { count ≤ 25 }
    requires inside { IsInside count value }
    ensures number { result ≡ signed_field count value }
    ensures fits { result < 2 ^ count }
{
    if value >= 0 {
        value as u32
    } else {
        (1 << count) - 1 - (-1 - value) as u32
    }
}

/// Numbers in two's complement, each in so many bits.
pub(super) fn put_signed(writer: &mut BitWriter, values: &[i32], count: u32) -> Result<(), NoMemory>
    requires low { 1 ≤ count }
    requires few { count ≤ 25 }
    requires inside { AreInside count values.now }
    ensures { OnOk result (writer.new ≡ writer.old ++ signed_bits count values.now) }
{
    for place in 0..values.len() {
        writer.put(signed_field(values[place], count), count)?;
    }
    Ok(())
}

// A number in unary.
fn put_unary(writer: &mut BitWriter, number: u32) -> Result<(), NoMemory>
    ensures { OnOk result (writer.new ≡ writer.old ++ unary_bits number) }
{
    for _ in 0..number / 32 {
        writer.put(0, 32)?;
    }
    writer.put(1, number % 32 + 1)?;
    Ok(())
}

// The natural number of a signed one.
fn zigzag(value: i32) -> u32
    ensures { result ≡ zigzag value }
{
    if value >= 0 {
        2 * value as u32
    } else {
        2 * (-1 - value) as u32 + 1
    }
}

/// Bits behind those of a writer, fewer than 32, as a number.
#[derive(Clone, Copy, Debug, Drop)]
struct Tail {
    number: u64,
    count: u32,
}

// A tail and a field behind it; where they fill a word of 32 bits, the writer gets the word.
#[inline(always)]
fn gathered(writer: &mut BitWriter, tail: Tail, value: u32, count: u32) -> Result<Tail, NoMemory>
    requires short { tail.count < 32 }
    requires tail { tail.number < 2 ^ tail.count }
    requires few { count ≤ 32 }
    requires fits { value < 2 ^ count }
    ensures bits { IfOk result (λ next. writer.new ++ low_bits next.count next.number ≡
        (writer.old ++ low_bits tail.count tail.number) ++ low_bits count value) }
    ensures short { IfOk result (λ next. next.count < 32) }
    ensures tail { IfOk result (λ next. next.number < 2 ^ next.count) }
{
    let joined = (tail.number << count) + u64::from(value);
    let total = tail.count + count;
    if total < 32 {
        return Ok(Tail {
            number: joined,
            count: total,
        });
    }
    let left = total - 32;
    writer.put((joined >> left) as u32, 32)?;
    Ok(Tail {
        number: joined % (1 << left),
        count: left,
    })
}

// A value behind a tail, where the two are more than a word.
#[inline(never)]
#[tactic(auto, unfolding(crate::specs::Spelling::value_bits_of))]
fn put_long(writer: &mut BitWriter, tail: Tail, number: u32, parameter: u32) -> Result<(), NoMemory>
    requires short { tail.count < 32 }
    requires tail { tail.number < 2 ^ tail.count }
    requires parameter { parameter ≤ 30 }
    ensures { OnOk result (writer.new ≡ (writer.old ++ low_bits tail.count tail.number) ++ rice_code parameter number) }
{
    writer.put(tail.number as u32, tail.count)?;
    put_unary(writer, number >> parameter)?;
    writer.put(number % (1 << parameter), parameter)
}

#[inline(always)]
#[tactic(auto, unfolding(crate::specs::Spelling::value_bits_of))]
fn put_value(
    writer: &mut BitWriter,
    tail: Tail,
    value: i32,
    parameter: u32,
) -> Result<Tail, NoMemory>
    requires short { tail.count < 32 }
    requires tail { tail.number < 2 ^ tail.count }
    requires parameter { parameter ≤ 30 }
    ensures bits { IfOk result (λ next. writer.new ++ low_bits next.count next.number ≡
        (writer.old ++ low_bits tail.count tail.number) ++ value_bits_of parameter value) }
    ensures short { IfOk result (λ next. next.count < 32) }
    ensures tail { IfOk result (λ next. next.number < 2 ^ next.count) }
{
    let number = zigzag(value);
    let quotient = number >> parameter;
    if quotient < 32 - parameter {
        let rest = number % (1 << parameter);
        let next = gathered(
            writer,
            tail,
            (1 << parameter) + rest,
            quotient + 1 + parameter,
        )?;
        return Ok(next);
    }
    put_long(writer, tail, number, parameter)?;
    Ok(Tail {
        number: 0,
        count: 0,
    })
}

/// Residuals under a parameter.
pub(super) fn put_values(
    writer: &mut BitWriter,
    values: &[i32],
    parameter: u32,
) -> Result<(), NoMemory>
    requires { parameter ≤ 30 }
    ensures { OnOk result (writer.new ≡ writer.old ++ values_bits parameter values.now) }
{
    let mut tail = Tail {
        number: 0,
        count: 0,
    };
    for place in 0..values.len() {
        tail = put_value(writer, tail, values[place], parameter)?;
    }
    writer.put(tail.number as u32, tail.count)
}

// Range coding.

ghost use Rattle.std.specs.Prelude.{IsTrue};
ghost use Rattle.range_coder.specs.Symbol.{IsCodable};

use crate::stop::Stop;
use crate::{answer, parse};
use range_coder::{Decoder, Encoder, States, Table, get_symbol, put_symbol};
use std::alloc::Global;

/// The answer to a case of range coding, if the words are one: numbers that are coded on one set of fresh states by the
/// default table.
pub fn answer_to(alloc: Global, words: &[&str]) -> Option<Result<String, Stop>> {
    Some(match words {
        ["symbols", signed, values] => symbols(alloc, signed, values),
        ["numbers", signed, count, coded] => numbers(alloc, signed, count, coded),
        _ => return None,
    })
}

// Whether the number can be coded.
fn is_codable(value: i32, signed: bool) -> bool
    ensures { IsTrue result → IsCodable value signed }
{
    value != i32::MIN && (signed || value >= 0)
}

fn symbols(alloc: Global, signed: &str, values: &str) -> Result<String, Stop> {
    let signed = parse::switch(signed)?;
    let values: Vec<i32> = parse::numbers(alloc, values)?;
    let table = Table::default_table();
    let mut states = States::fresh();
    let mut encoder = Encoder::new(alloc);
    for value in values.as_slice() {
        if !is_codable(*value, signed) {
            return Err(Stop::OutOfRange);
        }
        put_symbol(&mut encoder, &table, &mut states, *value, signed)?;
    }
    answer::bytes(alloc, encoder.finish()?.as_slice())
}

fn numbers(alloc: Global, signed: &str, count: &str, coded: &str) -> Result<String, Stop> {
    let (signed, count) = (parse::switch(signed)?, parse::number(count)?);
    let coded = parse::bytes(alloc, coded)?;
    let Some(mut decoder) = Decoder::new(coded.as_slice()) else {
        return Ok(String::from_str(alloc, "start")?);
    };
    let table = Table::default_table();
    let mut states = States::fresh();
    let mut list = Vec::new(alloc);
    for at in 0..count {
        match get_symbol(&mut decoder, &table, &mut states, signed) {
            Ok(number) => list.push(number)?,
            Err(_) => return Ok(format!(in alloc; "overlong {at}")?),
        }
    }
    answer::numbers(alloc, list.as_slice())
}

// The parameters of FFV1.

ghost use Rattle.std.specs.Prelude.{IsTrue, IfOk};
ghost use Rattle.ffv1_params.specs.Parameters.{IsPicture, is_depth};
ghost use Rattle.ffv1_frame.specs.Written.{AreFilmOf};

use crate::stop::Stop;
use crate::{answer, parse};
use ffv1_params::{Params, ParamsWhy};
use std::alloc::Global;

/// The answer to a case of parameters, if the words are one: those of the writer, or a record that is read.
pub fn answer_to(alloc: Global, words: &[&str]) -> Option<Result<String, Stop>> {
    Some(match words {
        ["film", bits, width, height] => film_written(alloc, bits, width, height),
        ["record", record] => record_read(alloc, record),
        _ => return None,
    })
}

/// Whether pictures of this size are coded.
pub fn is_picture(width: u32, height: u32) -> bool
    ensures { IsTrue result → IsPicture width height }
{
    1 <= width
        && width <= 16384
        && 1 <= height
        && height <= 16384
        && u64::from(width) * u64::from(height) <= 67108864
}

/// Whether samples of so many bits are coded.
pub fn is_depth(bits: u8) -> bool
    ensures { IsTrue result → IsTrue (is_depth bits) }
{
    matches!(bits, 8 | 10 | 12 | 16)
}

/// The writer's parameters of pictures of this size.
#[tactic(auto, unfolding(ffv1_params::specs::Parameters::film_params))]
pub fn film(alloc: Global, bits: u8, width: u32, height: u32) -> Result<Params, Stop>
    ensures film { IfOk result (λ params. AreFilmOf params width height) }
{
    if !is_depth(bits) || !is_picture(width, height) {
        return Err(Stop::OutOfRange);
    }
    Ok(Params::film(alloc, bits, width, height)?)
}

/// The parameters of a record.
pub fn recorded(alloc: Global, record: &str) -> Result<Params, Stop> {
    let record = parse::bytes(alloc, record)?;
    match ffv1_params::read(alloc, record.as_slice()) {
        Ok(params) => Ok(params),
        Err(ParamsWhy::NoMemory) => Err(Stop::NoMemory),
        Err(_) => Err(Stop::OutOfRange),
    }
}

fn film_written(alloc: Global, bits: &str, width: &str, height: &str) -> Result<String, Stop> {
    let (bits, width) = (parse::number(bits)?, parse::number(width)?);
    let params = film(alloc, bits, width, parse::number(height)?)?;
    let coded = ffv1_params::write(alloc, &params)?;
    let coded = answer::bytes(alloc, coded.as_slice())?;
    let rows = params.rows();
    let contexts = contexts_of(alloc, &params)?;
    Ok(format!(in alloc; "{coded} {rows} {contexts}")?)
}

// The contexts of each set.
fn contexts_of(alloc: Global, params: &Params) -> Result<String, Stop> {
    let mut contexts = Vec::new(alloc);
    for set in 0..params.sets() {
        contexts.push(params.contexts(set))?;
    }
    answer::numbers(alloc, contexts.as_slice())
}

fn record_read(alloc: Global, record: &str) -> Result<String, Stop> {
    let record = parse::bytes(alloc, record)?;
    match ffv1_params::read(alloc, record.as_slice()) {
        Ok(params) => params_told(alloc, &params),
        Err(ParamsWhy::NoMemory) => Err(Stop::NoMemory),
        Err(why) => Ok(format!(in alloc; "{why:?}")?),
    }
}

fn params_told(alloc: Global, params: &Params) -> Result<String, Stop> {
    let (bits, columns, rows) = (params.bits(), params.columns(), params.rows());
    let (sets, parity) = (params.sets(), u8::from(params.ec()));
    let contexts = contexts_of(alloc, params)?;
    Ok(format!(in alloc; "{bits} {columns} {rows} {sets} {contexts} {parity}")?)
}

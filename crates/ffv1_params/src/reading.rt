ghost use Rattle.std.specs.Prelude.{◌≡◌};
ghost use Rattle.ffv1_params.specs.Reading.{record_read};
ghost use Rattle.ffv1_params.specs.Reading as reading;
ghost use Rattle.ffv1_params.specs.Walk.{Gives, Answers};

use crate::sets::sets_of;
use crate::walk::FieldReader;
use crate::{Params, ParamsWhy};
use cook_bits::crc32_high;
use range_coder::Decoder;
use std::alloc::Global;

/// The bytes of the parity.
const PARITY: usize = 4;

/// The parameters that a configuration record holds (RFC 9043, section 4.3, "Configuration Record"), or the
/// first rule that it breaks. Each condition is tested as soon as the values that it names were read, so what
/// stands behind a value that is refused isn't read.
pub fn read(alloc: Global, bytes: &[u8]) -> Result<Params, ParamsWhy>
    ensures { Gives result (record_read bytes.now) }
{
    if bytes.len() < PARITY || crc32_high(bytes) != 0 {
        return Err(ParamsWhy::RecordCrc);
    }
    let values = &bytes[..bytes.len() - PARITY];
    match Decoder::new(values) {
        Some(decoder) => params_of(alloc, &mut FieldReader::new(decoder)),
        None => Err(ParamsWhy::Start),
    }
}

// The parameters, value after value.
#[tactic(auto, using(crate::proofs::WalkLaws::walk_laws), unfolding(crate::specs::Reading::parameters))]
fn params_of(alloc: Global, fields: &mut FieldReader<'_>) -> Result<Params, ParamsWhy>
    ensures { Answers fields.old fields.new result reading.parameters }
{
    fields.version()?;
    let bits = fields.colours()?;
    let (columns, rows) = fields.grid()?;
    let count = fields.count()?;
    let sets = sets_of(alloc, fields, count)?;
    fields.no_states(count)?;
    let ec = fields.flags()?;
    Ok(Params::of(bits, columns, rows, ec, sets))
}

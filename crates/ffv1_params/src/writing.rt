ghost use Rattle.std.specs.Prelude.{◌≡◌, ◌≤◌, length, IfOk};
ghost use Rattle.ffv1_params.specs.Parameters.{AreFilm};
ghost use Rattle.ffv1_params.specs.Record.{record_of, film_fields};

use crate::Params;
use crate::fields::FieldWriter;
use cook_bits::{Bytes, NoMemory, crc32_high};
use range_coder::laws;
use std::alloc::Global;

/// The configuration record of the parameters that this project writes (RFC 9043, section 4.3,
/// "Configuration Record"), whatever their rows. It has at most 1,000 bytes.
pub fn write(alloc: Global, params: &Params) -> Result<Bytes, NoMemory>
    requires { AreFilm params.now }
    ensures spelled { IfOk result (λ bytes. bytes ≡ record_of (film_fields params.now.bits params.now.rows)) }
    ensures few { IfOk result (λ bytes. length bytes ≤ 1000) }
{
    laws::lists_are_joined();
    let mut fields = FieldWriter::new(alloc);
    fields.version()?;
    fields.colours(params.bits())?;
    fields.grid(params.rows())?;
    fields.set()?;
    fields.flags()?;
    let mut bytes = fields.finish()?;
    let parity = crc32_high(bytes.as_slice());
    bytes.append(&parity.to_be_bytes())?;
    Ok(bytes)
}

// The records of side data, as long as film and sound aren't given back.
ghost use Rattle.std.specs.Prelude.{◌≡◌, ◌<◌, ◌^◌, length, IfOk};
ghost use Rattle.reversal.specs.SideData.{AreNames, AreRecords, names_of};
ghost use Rattle.reversal.specs.SideReading.{GivesSide};
ghost use Rattle.cook_restore.specs.Plain.{film_place, plain_read};

use reversal::{FileRecord, Kind, SideError};
use std::alloc::Global;

// The first byte of the first record of a frame or of a wave, if there is one.
fn film_place(records: &[FileRecord]) -> Option<u64>
    requires { AreRecords records.now }
    ensures { result ≡ film_place 12 records.now }
{
    let mut place = 12;
    for said in records {
        match said.kind {
            Kind::Other => place += 27 + said.name.as_str().len() as u64,
            Kind::Frame { .. } | Kind::Wave { .. } => return Some(place),
        }
    }
    None
}

/// The records of side data that are of attached files alone. `SideBad` comes at the first byte of a record of a frame or of a
/// wave, too, where the side data has no other fault.
pub fn plain_records(alloc: Global, bytes: &[u8]) -> Result<Vec<FileRecord>, SideError>
    ensures exact { GivesSide result (plain_read bytes.now) }
    ensures few { IfOk result (λ records. length records.items < 2 ^ 32) }
    ensures named { IfOk result (λ records. AreNames (names_of records.items)) }
{
    match reversal::read(alloc, bytes) {
        Ok(records) => match film_place(&records) {
            None => Ok(records),
            Some(place) => Err(SideError::SideBad { place }),
        },
        Err(error) => Err(error),
    }
}

ghost use Rattle.std.specs.Prelude.{◌≡◌, ◌<◌, ◌^◌, ◌+◌, ◌++◌, length, IfOk, OnOk};
ghost use Rattle.reversal.specs.SideData.{AreRecords, HasSum, all_parts_len, block_bytes, kind_number, names_of, parts_bytes, record_bytes, side_data_len, side_data_of};

use crate::parts::{FRAME, OTHER, WAVE};
use crate::{FileRecord, Kind};
use cook_bits::{Bytes, NoMemory};
use std::alloc::Global;

/// What side data begins with: seven letters and the version.
pub(crate) const MARK: [u8; 8] = [67, 79, 79, 75, 82, 69, 86, 1];

fn number_of(kind: Kind) -> u8
    ensures { result ≡ kind_number kind }
{
    match kind {
        Kind::Other => OTHER,
        Kind::Frame { .. } => FRAME,
        Kind::Wave { .. } => WAVE,
    }
}

// Bytes behind their length.
fn put_block(out: &mut Bytes, bytes: &Bytes) -> Result<(), NoMemory>
    ensures { OnOk result (out.new ≡ out.old ++ block_bytes bytes.now) }
{
    let bytes = bytes.as_slice();
    out.append(&(bytes.len() as u64).to_be_bytes())?;
    out.append(bytes)?;
    Ok(())
}

fn put_parts(out: &mut Bytes, entry: &FileRecord) -> Result<(), NoMemory>
    ensures { OnOk result (out.new ≡ out.old ++ parts_bytes entry.now.kind entry.now.head entry.now.pads entry.now.tail) }
{
    match entry.kind {
        Kind::Other => Ok(()),
        Kind::Frame { track, index } => {
            out.append(&[track])?;
            out.append(&index.to_be_bytes())?;
            put_block(out, &entry.head)?;
            out.append(entry.pads.as_slice())?;
            put_block(out, &entry.tail)?;
            Ok(())
        }
        Kind::Wave { track } => {
            out.append(&[track])?;
            put_block(out, &entry.head)?;
            put_block(out, &entry.tail)
        }
    }
}

fn put_record(out: &mut Bytes, entry: &FileRecord) -> Result<(), NoMemory>
    requires { length entry.now.name < 2 ^ 16 }
    ensures spelled { OnOk result (out.new ≡ out.old ++ record_bytes entry.now) }
    ensures summed { HasSum entry.now }
{
    let name = entry.name.as_str().as_bytes();
    out.append(&[number_of(entry.kind)])?;
    out.append(&(name.len() as u16).to_be_bytes())?;
    out.append(name)?;
    out.append(&entry.length.to_be_bytes())?;
    out.append(&entry.md5)?;
    put_parts(out, entry)
}

/// The side data of the records.
#[tactic(auto, unfolding(crate::specs::SideData::side_data_of))]
pub fn write(alloc: Global, records: &[FileRecord]) -> Result<Bytes, NoMemory>
    requires { AreRecords records.now }
    ensures spelled { IfOk result (λ written. written ≡ side_data_of records.now) }
    ensures long { IfOk result (λ written. length written ≡ side_data_len (names_of records.now) + all_parts_len records.now) }
{
    let mut out = Bytes::new(alloc);
    out.append(&MARK)?;
    out.append(&(records.len() as u32).to_be_bytes())?;
    for entry in records {
        put_record(&mut out, entry)?;
    }
    Ok(out)
}

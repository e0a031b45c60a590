ghost use Rattle.std.specs.Prelude.{◌≡◌, ◌++◌, IfOk, OnOk};
ghost use Rattle.ebml_core.specs.Element.{uint_bytes};
ghost use Rattle.matroska_names.specs.declared.ids.TheConstants.{SEGMENT};
ghost use Rattle.matroska_write.specs.Header.{unknown_size, header_bytes, ebml_content, info_content};

use cook_bits::{Bytes, NoMemory};
use ebml_core::{put_bytes, put_uint};
use matroska_names::ids::{
    DOC_TYPE, DOC_TYPE_READ_VERSION, DOC_TYPE_VERSION, EBML, EBML_MAX_ID_LENGTH,
    EBML_MAX_SIZE_LENGTH, EBML_READ_VERSION, EBML_VERSION, INFO, MUXING_APP, SEGMENT,
    TIMESTAMP_SCALE, WRITING_APP,
};
use matroska_names::texts::{APP, MATROSKA};
use std::alloc::Global;

/// An unknown size, in eight bytes: the Segment ends with the file.
const UNKNOWN_SIZE: [u8; 8] = [0x01, 0xFF, 0xFF, 0xFF, 0xFF, 0xFF, 0xFF, 0xFF];

// Adds the head of a Segment of unknown size.
fn put_segment_head(out: &mut Bytes) -> Result<(), NoMemory>
    ensures { OnOk result (out.new ≡ out.old ++ (uint_bytes SEGMENT ++ unknown_size)) }
{
    out.append(&SEGMENT.to_be_bytes())?;
    out.append(&UNKNOWN_SIZE)?;
    Ok(())
}

/// What every package begins with: the EBML header, the head of the Segment, Info.
#[tactic(auto, using(crate::specs::HeaderLaws::header_laws), unfolding(crate::specs::Header::header_bytes))]
pub fn header(alloc: Global) -> Result<Bytes, NoMemory>
    ensures { IfOk result (λ header. header ≡ header_bytes) }
{
    let mut out = Bytes::new(alloc);
    let content = ebml_content(alloc)?;
    put_bytes(&mut out, EBML, content.as_slice())?;
    put_segment_head(&mut out)?;
    let content = info_content(alloc)?;
    put_bytes(&mut out, INFO, content.as_slice())?;
    Ok(out)
}

#[tactic(auto, unfolding(crate::specs::Header::ebml_content))]
fn ebml_content(alloc: Global) -> Result<Bytes, NoMemory>
    ensures { IfOk result (λ content. content ≡ ebml_content) }
{
    let mut out = Bytes::new(alloc);
    put_uint(&mut out, EBML_VERSION, 1)?;
    put_uint(&mut out, EBML_READ_VERSION, 1)?;
    put_uint(&mut out, EBML_MAX_ID_LENGTH, 4)?;
    put_uint(&mut out, EBML_MAX_SIZE_LENGTH, 8)?;
    put_bytes(&mut out, DOC_TYPE, MATROSKA.as_bytes())?;
    put_uint(&mut out, DOC_TYPE_VERSION, 4)?;
    put_uint(&mut out, DOC_TYPE_READ_VERSION, 2)?;
    Ok(out)
}

#[tactic(auto, unfolding(crate::specs::Header::info_content))]
fn info_content(alloc: Global) -> Result<Bytes, NoMemory>
    ensures { IfOk result (λ content. content ≡ info_content) }
{
    let mut out = Bytes::new(alloc);
    put_uint(&mut out, TIMESTAMP_SCALE, 1_000_000)?;
    put_bytes(&mut out, MUXING_APP, APP.as_bytes())?;
    put_bytes(&mut out, WRITING_APP, APP.as_bytes())?;
    Ok(out)
}

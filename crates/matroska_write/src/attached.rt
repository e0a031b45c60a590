ghost use Rattle.std.specs.Prelude.{◌≡◌, ◌+◌, ◌^◌, ◌<◌, ◌≤◌, length, IfOk};
ghost use Rattle.matroska_write.specs.Attached.{media_type, attached_fields, attached_head, attachments_head};

use cook_bits::{Bytes, NoMemory};
use ebml_core::{head_len, put_bytes, put_head, put_uint, uint_len};
use matroska_names::ids::{
    ATTACHED_FILE, ATTACHMENTS, FILE_DATA, FILE_MEDIA_TYPE, FILE_NAME, FILE_UID,
};
use matroska_names::texts::{OTHER_MEDIA_TYPE, SIDE_MEDIA_TYPE};
use std::alloc::Global;

/// The head of the Attachments for so many bytes of content.
pub fn attachments_head(alloc: Global, content: u64) -> Result<Bytes, NoMemory>
    requires { content < 2 ^ 55 }
    ensures { IfOk result (λ head. head ≡ attachments_head content) }
{
    let mut out = Bytes::new(alloc);
    put_head(&mut out, ATTACHMENTS, content)?;
    Ok(out)
}

/// The media type of an attached file, or of the side data.
fn media_type(side: bool) -> &'static [u8]
    ensures { result.now ≡ media_type side }
{
    if side {
        SIDE_MEDIA_TYPE.as_bytes()
    } else {
        OTHER_MEDIA_TYPE.as_bytes()
    }
}

// The length of FileName, FileMediaType and FileUID.
#[tactic(auto, using(crate::specs::AttachedLaws::attached_laws))]
fn fields_len(name: &str, side: bool, uid: u64) -> u64
    requires { length name.now < 2 ^ 54 }
    ensures len { result ≡ length (attached_fields name.now side uid) }
    ensures high { result ≤ length name.now + 100 }
{
    let name_len = name.len() as u64;
    let media_len = media_type(side).len() as u64;
    head_len(FILE_NAME, name_len)
        + name_len
        + head_len(FILE_MEDIA_TYPE, media_len)
        + media_len
        + uint_len(FILE_UID, uid)
}

/// An AttachedFile up to the first byte of its file's content of `len` bytes.
#[tactic(auto, using(crate::specs::AttachedLaws::attached_laws), unfolding(crate::specs::Attached::attached_head, crate::specs::Attached::attached_fields))]
pub fn attached_head(
    alloc: Global,
    name: &str,
    side: bool,
    uid: u64,
    len: u64,
) -> Result<Bytes, NoMemory>
    requires name { length name.now < 2 ^ 54 }
    requires content { len < 2 ^ 54 }
    ensures { IfOk result (λ head. head ≡ attached_head name.now side uid len) }
{
    let mut out = Bytes::new(alloc);
    let data_len = head_len(FILE_DATA, len) + len;
    put_head(
        &mut out,
        ATTACHED_FILE,
        fields_len(name, side, uid) + data_len,
    )?;
    put_bytes(&mut out, FILE_NAME, name.as_bytes())?;
    put_bytes(&mut out, FILE_MEDIA_TYPE, media_type(side))?;
    put_uint(&mut out, FILE_UID, uid)?;
    put_head(&mut out, FILE_DATA, len)?;
    Ok(out)
}

/// The length of a whole AttachedFile, its head and its file's content of `len` bytes included. It takes no memory.
#[tactic(auto, using(crate::specs::AttachedLaws::attached_laws))]
pub fn attached_len(name: &str, side: bool, uid: u64, len: u64) -> u64
    requires name { length name.now < 2 ^ 54 }
    requires content { len < 2 ^ 54 }
    ensures len { result ≡ length (attached_head name.now side uid len) + len }
    ensures high { result ≤ length name.now + len + 200 }
{
    let content = fields_len(name, side, uid) + (head_len(FILE_DATA, len) + len);
    head_len(ATTACHED_FILE, content) + content
}

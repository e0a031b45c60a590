ghost use Rattle.std.specs.Prelude.{◌≡◌, ◌+◌, ◌-◌, ◌^◌, ◌<◌, ◌≤◌, ◌++◌, length, OnOk, OnErr};
ghost use Rattle.ebml_core.specs.Element.{IsIdentifier, head_of, element, uint_element};

use crate::spell::{byte_count, shortest_size, write_head};
use byteorder::{BigEndian, ByteOrder};
use cook_bits::{Bytes, NoMemory};

/// The length in bytes of the head that [`put_head`] adds. It takes no memory.
#[tactic(auto, using(crate::specs::Heads::heads))]
pub fn head_len(id: u32, size: u64) -> u64
    requires identifier { IsIdentifier id }
    requires known { size < 2 ^ 56 - 1 }
    ensures len { result ≡ length (head_of id size) }
    ensures high { result ≤ 12 }
{
    (byte_count(u64::from(id)) + shortest_size(size)) as u64
}

/// The length in bytes of the element that [`put_uint`] adds. It takes no memory.
#[tactic(auto, using(crate::specs::Heads::heads), unfolding(crate::specs::Element::uint_element, crate::specs::Element::element, crate::specs::Element::uint_bytes))]
pub fn uint_len(id: u32, value: u64) -> u64
    requires { IsIdentifier id }
    ensures len { result ≡ length (uint_element id value) }
    ensures high { result ≤ 20 }
{
    let len = byte_count(value) as u64;
    head_len(id, len) + len
}

/// Adds the head of an element whose content has `size` bytes (RFC 8794, sections 5 and 6): the
/// identifier, and the size in its shortest spelling. After a refusal `out` is unchanged.
pub fn put_head(out: &mut Bytes, id: u32, size: u64) -> Result<(), NoMemory>
    requires identifier { IsIdentifier id }
    requires known { size < 2 ^ 56 - 1 }
    ensures ok { OnOk result (out.new ≡ out.old ++ head_of id size) }
    ensures err { OnErr result (out.new ≡ out.old) }
{
    let mut buf = [0; 12];
    let len = write_head(&mut buf, id, size);
    out.append(&buf[..len])
}

/// Adds an element whose content is the number, big-endian in the fewest bytes, at least one (RFC
/// 8794, section 7.2). After a refusal `out` is unchanged.
#[tactic(auto, using(crate::specs::Heads::heads), unfolding(crate::specs::Element::uint_element, crate::specs::Element::uint_bytes))]
pub fn put_uint(out: &mut Bytes, id: u32, value: u64) -> Result<(), NoMemory>
    requires { IsIdentifier id }
    ensures ok { OnOk result (out.new ≡ out.old ++ uint_element id value) }
    ensures err { OnErr result (out.new ≡ out.old) }
{
    let mut buf = [0; 8];
    let len = byte_count(value);
    BigEndian::write_uint(&mut buf, value, len);
    put_bytes(out, id, &buf[..len])
}

/// Adds an element with this content. After a refusal `out` is unchanged.
#[tactic(auto, unfolding(crate::specs::Element::element))]
pub fn put_bytes(out: &mut Bytes, id: u32, bytes: &[u8]) -> Result<(), NoMemory>
    requires identifier { IsIdentifier id }
    requires known { length bytes.now < 2 ^ 56 - 1 }
    ensures ok { OnOk result (out.new ≡ out.old ++ element id bytes.now) }
    ensures err { OnErr result (out.new ≡ out.old) }
{
    let before = out.as_slice().len();
    put_head(out, id, bytes.len() as u64)?;
    if let Err(refused) = out.append(bytes) {
        out.truncate(before);
        return Err(refused);
    }
    Ok(())
}

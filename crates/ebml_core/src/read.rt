ghost use Rattle.std.specs.Prelude.{◌≡◌, ◌*◌, ◌^◌, ◌<◌, ◌≤◌, length, IfSome};
ghost use Rattle.ebml_core.specs.Reading.{vint_len, id_at, size_at, size_meant, head_at};

use crate::{Head, Size};
use byteorder::{BigEndian, ByteOrder};

/// The length of the VINT of at most `most` bytes that the bytes begin with (RFC 8794, section 4).
#[tactic(auto, unfolding(crate::specs::Reading::vint_len))]
fn vint_len(bytes: &[u8], most: usize) -> Option<usize>
    ensures exact { result ≡ vint_len most bytes.now }
    ensures low { IfSome result (λ len. 1 ≤ len) }
    ensures high { IfSome result (λ len. len ≤ most) }
    ensures whole { IfSome result (λ len. len ≤ length bytes.now) }
{
    let [first, ..] = bytes else {
        return None;
    };
    let len = first.leading_zeros() as usize + 1;
    if len <= most && len <= bytes.len() {
        Some(len)
    } else {
        None
    }
}

/// The identifier that the bytes begin with, and its length (RFC 8794, section 5). It takes no memory.
#[tactic(auto, unfolding(crate::specs::Reading::id_at))]
pub fn read_id(bytes: &[u8]) -> Option<(u32, usize)>
    ensures exact { result ≡ id_at bytes.now }
    ensures len { IfSome result (λ r. (1 ≤ r.1) × (r.1 ≤ 4)) }
    ensures whole { IfSome result (λ r. r.1 ≤ length bytes.now) }
{
    let len = vint_len(bytes, 4)?;
    Some((BigEndian::read_uint(bytes, len) as u32, len))
}

/// The size that the bytes begin with, and its length (RFC 8794, section 6). It takes no memory.
#[tactic(auto, unfolding(crate::specs::Reading::size_at))]
pub fn read_size(bytes: &[u8]) -> Option<(Size, usize)>
    ensures exact { result ≡ size_at bytes.now }
    ensures len { IfSome result (λ r. (1 ≤ r.1) × (r.1 ≤ 8)) }
    ensures whole { IfSome result (λ r. r.1 ≤ length bytes.now) }
{
    let len = vint_len(bytes, 8)?;
    let content = BigEndian::read_uint(bytes, len) % (1 << (7 * len));
    Some((size_meant(len, content), len))
}

// What the bits of a size of `len` bytes mean, its marker taken off.
#[tactic(auto, using(crate::proofs::Lengths::marker_small, crate::proofs::Lengths::shifted), unfolding(crate::specs::Reading::size_meant))]
fn size_meant(len: usize, content: u64) -> Size
    requires high { len ≤ 8 }
    requires fits { content < 2 ^ (7 * len) }
    ensures { result ≡ size_meant len content }
{
    if content + 1 == 1 << (7 * len) {
        Size::Unknown
    } else {
        Size::Known(content)
    }
}

/// The head that the bytes begin with: an identifier and then a size. It takes no memory.
#[tactic(auto, unfolding(crate::specs::Reading::head_at))]
pub fn head(bytes: &[u8]) -> Option<Head>
    ensures exact { result ≡ head_at bytes.now }
    ensures len { IfSome result (λ h. (2 ≤ h.len) × (h.len ≤ 12)) }
    ensures whole { IfSome result (λ h. h.len ≤ length bytes.now) }
{
    let (id, id_len) = read_id(bytes)?;
    let (size, size_len) = read_size(&bytes[id_len..])?;
    Some(Head {
        id,
        size,
        len: id_len + size_len,
    })
}

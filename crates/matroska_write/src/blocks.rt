ghost use Rattle.std.specs.Prelude.{◌≡◌, ◌+◌, ◌<◌, ◌≤◌, ◌^◌, ◌++◌, length, IfOk};
ghost use Rattle.std.specs.Int.{w32, to_le_bytes};
ghost use Rattle.cook_bits.specs.Crc.{crc32_ebml_of};
ghost use Rattle.matroska_write.specs.Cluster.{timed_head, cluster_of};

use cook_bits::laws::register_goes_on;
use cook_bits::{Bytes, Crc32Ebml, NoMemory};
use ebml_core::{put_bytes, put_head, put_uint};
use matroska_names::ids::{CLUSTER, CRC_32, SIMPLE_BLOCK, TIMESTAMP};
use std::alloc::Global;

/// The bytes of a CRC-32 element: its identifier, its size, and four bytes.
const CRC_ELEMENT_LEN: u64 = 6;

/// The bytes of a SimpleBlock before the coded block.
const BLOCK_HEAD_LEN: u64 = 4;

/// The flags of a SimpleBlock: a keyframe, without lacing.
const KEYFRAME: u8 = 0x80;

// What a Cluster has behind its CRC-32, up to the first byte of the coded block of `len` bytes.
fn before_body(alloc: Global, track: u8, time: u64, len: u64) -> Result<Bytes, NoMemory>
    requires track { track ≤ 126 }
    requires len { len < 2 ^ 54 }
    ensures spelled { IfOk result (λ bytes. bytes ≡ timed_head track time len) }
    ensures short { IfOk result (λ bytes. length bytes ≤ 36) }
{
    let mut out = Bytes::new(alloc);
    put_uint(&mut out, TIMESTAMP, time)?;
    put_head(&mut out, SIMPLE_BLOCK, BLOCK_HEAD_LEN + len)?;
    out.append(&[128 + track, 0, 0, KEYFRAME])?;
    Ok(out)
}

// The CRC-32 of two lists of bytes behind one another, little-endian.
#[tactic(auto, using(crate::proofs::ClusterLaws::crc_of_both))]
fn crc_of_both(before: &[u8], body: &[u8]) -> [u8; 4]
    ensures { result ≡ to_le_bytes w32 (crc32_ebml_of (before.now ++ body.now)) }
{
    let mut crc = Crc32Ebml::new();
    crc.update(before);
    crc.update(body);
    register_goes_on();
    crc.value().to_le_bytes()
}

/// A block of a track, at a time in milliseconds, as a Cluster of its own (RFC 9559, section 5.1.3): the CRC-32 of the rest, the
/// Timestamp, a SimpleBlock.
pub fn cluster(alloc: Global, track: u8, time: u64, body: &[u8]) -> Result<Bytes, NoMemory>
    requires first { 1 ≤ track }
    requires last { track ≤ 126 }
    requires body { length body.now < 2 ^ 54 }
    ensures { IfOk result (λ cluster. cluster ≡ cluster_of track time body.now) }
{
    let held = before_body(alloc, track, time, body.len() as u64)?;
    let before = held.as_slice();
    let crc = crc_of_both(before, body);
    let mut out = Bytes::new(alloc);
    put_head(
        &mut out,
        CLUSTER,
        CRC_ELEMENT_LEN + (before.len() + body.len()) as u64,
    )?;
    put_bytes(&mut out, CRC_32, &crc)?;
    out.append(before)?;
    out.append(body)?;
    Ok(out)
}

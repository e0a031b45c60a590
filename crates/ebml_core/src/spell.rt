// How numbers, sizes and heads are spelled, into a buffer of the caller's.

ghost use Rattle.std.specs.Prelude.{◌≡◌, ◌+◌, ◌-◌, ◌*◌, ◌^◌, ◌<◌, ◌≤◌, ◌++◌, length, drop};
ghost use Rattle.ebml_core.specs.Element.{IsIdentifier, byte_count, shortest_size, uint_bytes, head_of};

use byteorder::{BigEndian, ByteOrder};

/// The fewest bytes that hold the number, at least one.
#[tactic(auto, using(crate::proofs::Lengths::lengths))]
pub fn byte_count(value: u64) -> usize
    ensures count { result ≡ byte_count value }
    ensures low { 1 ≤ result }
    ensures high { result ≤ 8 }
    ensures holds { value < 256 ^ result }
{
    for len in 1..8 {
        if value < 1 << (8 * len) {
            return len;
        }
    }
    8
}

/// The length in bytes of the shortest size that holds `size`.
#[tactic(auto, using(crate::proofs::Lengths::lengths))]
pub fn shortest_size(size: u64) -> usize
    requires { size < 2 ^ 56 - 1 }
    ensures count { result ≡ shortest_size size }
    ensures low { 1 ≤ result }
    ensures high { result ≤ 8 }
    ensures marker { 2 ^ (7 * result) ≤ 2 ^ 56 }
    ensures holds { 2 ^ (7 * result) + size < 256 ^ result }
{
    for len in 1..8 {
        if size + 1 < 1 << (7 * len) {
            return len;
        }
    }
    8
}

/// Writes the head into the buffer, from its start on, and answers the head's length.
#[tactic(auto, using(crate::specs::Heads::heads), unfolding(crate::specs::Element::head_of, crate::specs::Element::uint_bytes, crate::specs::Element::size_bytes))]
pub fn write_head(buf: &mut [u8], id: u32, size: u64) -> usize
    requires identifier { IsIdentifier id }
    requires known { size < 2 ^ 56 - 1 }
    requires room { 12 ≤ length buf.old }
    ensures len { result ≡ length (head_of id size) }
    ensures high { result ≤ 12 }
    ensures bytes { buf.new ≡ head_of id size ++ drop result buf.old }
{
    let id = u64::from(id);
    let id_len = byte_count(id);
    let size_len = shortest_size(size);
    BigEndian::write_uint(buf, id, id_len);
    BigEndian::write_uint(&mut buf[id_len..], (1 << (7 * size_len)) + size, size_len);
    id_len + size_len
}

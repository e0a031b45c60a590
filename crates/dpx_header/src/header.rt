// The fields of the header that decide the layout, read in the file's byte order.

ghost use Rattle.std.specs.Prelude.{◌≡◌, ◌+◌, ◌≤◌, ◌||◌, true, false, length};
ghost use Rattle.dpx_header.specs.Header.{number_at, has_magic, header_at, header_of};

use byteorder::{BigEndian, ByteOrder, LittleEndian};

/// The length in bytes of the generic header (SMPTE 268M): the file information header (768 bytes), the
/// image information header (640) and the image orientation header (256).
pub const HEADER_LEN: usize = 1664;

// `SDPX`
const MAGIC: u32 = 0x53445058;

#[derive(Clone, Copy)]
pub struct Header {
    pub big: bool,
    pub offset: u32,
    pub elements: u16,
    pub width: u32,
    pub height: u32,
    pub descriptor: u8,
    pub depth: u8,
    pub packing: u16,
    pub encoding: u16,
    pub line_padding: u32,
}

#[tactic(auto, unfolding(crate::specs::Header::number_at))]
fn u16_at(big: bool, place: usize, head: &[u8]) -> u16
    requires { place + 2 ≤ length head.now }
    ensures { result ≡ number_at big 2 place head.now }
{
    let bytes = &head[place..];
    if big {
        BigEndian::read_u16(bytes)
    } else {
        LittleEndian::read_u16(bytes)
    }
}

#[tactic(auto, unfolding(crate::specs::Header::number_at))]
fn u32_at(big: bool, place: usize, head: &[u8]) -> u32
    requires { place + 4 ≤ length head.now }
    ensures { result ≡ number_at big 4 place head.now }
{
    let bytes = &head[place..];
    if big {
        BigEndian::read_u32(bytes)
    } else {
        LittleEndian::read_u32(bytes)
    }
}

// Whether the bytes begin with the magic number in this byte order.
#[tactic(auto, unfolding(crate::specs::Header::has_magic))]
fn has_magic(big: bool, head: &[u8]) -> bool
    requires { 4 ≤ length head.now }
    ensures { result ≡ has_magic big head.now }
{
    u32_at(big, 0, head) == MAGIC
}

/// Whether the bytes begin with the magic number in either byte order.
pub fn is_dpx(head: &[u8]) -> bool
    requires { 4 ≤ length head.now }
    ensures { result ≡ (has_magic true head.now || has_magic false head.now) }
{
    has_magic(true, head) || has_magic(false, head)
}

/// The fields in the byte order that the magic number tells.
pub fn header_of(head: &[u8]) -> Header
    requires { 1664 ≤ length head.now }
    ensures { result ≡ header_of head.now }
{
    header_at(has_magic(true, head), head)
}

// The fields in this byte order.
#[tactic(auto, unfolding(crate::specs::Header::header_at))]
fn header_at(big: bool, head: &[u8]) -> Header
    requires { 1664 ≤ length head.now }
    ensures { result ≡ header_at big head.now }
{
    Header {
        big,
        offset: u32_at(big, 4, head),
        elements: u16_at(big, 770, head),
        width: u32_at(big, 772, head),
        height: u32_at(big, 776, head),
        descriptor: head[800],
        depth: head[803],
        packing: u16_at(big, 804, head),
        encoding: u16_at(big, 806, head),
        line_padding: u32_at(big, 812, head),
    }
}

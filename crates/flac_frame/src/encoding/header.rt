// The header of a frame as it is written.

ghost use Rattle.std.specs.Prelude.{◌≡◌, ◌^◌, ◌<◌, ◌≤◌, ◌++◌, OnOk, IfOk};
ghost use Rattle.flac_frame.specs.Writing as whole;

use cook_bits::{BitWriter, Bytes, NoMemory, crc8};
use std::alloc::Global;

// How many bytes follow the first of a coded number.
fn bytes_more(number: u32) -> u32
    ensures more { result ≡ whole.bytes_more number }
{
    if number < 1 << 7 {
        0
    } else if number < 1 << 11 {
        1
    } else if number < 1 << 16 {
        2
    } else if number < 1 << 21 {
        3
    } else if number < 1 << 26 {
        4
    } else {
        5
    }
}

#[tactic(auto, unfolding(crate::specs::Writing::coded_bits))]
fn put_coded(writer: &mut BitWriter, number: u32) -> Result<(), NoMemory>
    requires { number < 2 ^ 31 }
    ensures { OnOk result (writer.new ≡ writer.old ++ whole.coded_bits number) }
{
    let count = bytes_more(number);
    let lead = if count == 0 {
        0
    } else {
        256 - (1 << (7 - count))
    };
    writer.put(lead + (number >> (6 * count)), 8)?;
    put_later(writer, count, number)
}

fn put_later(writer: &mut BitWriter, count: u32, number: u32) -> Result<(), NoMemory>
    requires { count ≤ 5 }
    ensures { OnOk result (writer.new ≡ writer.old ++ whole.later_bits count number) }
{
    for done in 0..count {
        writer.put(128 + (number >> (6 * (count - 1 - done))) % 64, 8)?;
    }
    Ok(())
}

fn size_code(size: u32) -> u32
    ensures code { result ≡ whole.size_code_of size }
    ensures fits { result < 2 ^ 4 }
{
    if size == 4096 { 12 } else { 7 }
}

fn bits_code(bits: u32) -> u32
    ensures code { result ≡ whole.bits_code_of bits }
    ensures fits { result < 2 ^ 3 }
{
    match bits {
        8 => 1,
        16 => 4,
        _ => 6,
    }
}

#[tactic(auto, unfolding(crate::specs::Writing::size_bits))]
fn put_size(writer: &mut BitWriter, size: u32) -> Result<(), NoMemory>
    requires some { 1 ≤ size }
    requires few { size ≤ 4096 }
    ensures { OnOk result (writer.new ≡ writer.old ++ whole.size_bits size) }
{
    if size == 4096 {
        return Ok(());
    }
    writer.put(size - 1, 16)
}

#[tactic(auto, unfolding(crate::specs::Writing::header_bits))]
fn put_header(
    writer: &mut BitWriter,
    bits: u32,
    code: u32,
    size: u32,
    number: u32,
) -> Result<(), NoMemory>
    requires code { code < 2 ^ 4 }
    requires some { 1 ≤ size }
    requires few { size ≤ 4096 }
    requires number { number < 2 ^ 31 }
    ensures { OnOk result (writer.new ≡ writer.old ++ whole.header_bits bits code size number) }
{
    writer.put(0x7FFC, 15)?;
    writer.put(0, 1)?;
    writer.put(size_code(size), 4)?;
    writer.put(0, 4)?;
    writer.put(code, 4)?;
    writer.put(bits_code(bits), 3)?;
    writer.put(0, 1)?;
    put_coded(writer, number)?;
    put_size(writer, size)?;
    Ok(())
}

/// The header with its CRC.
#[tactic(auto, unfolding(crate::specs::Writing::head_of))]
pub(super) fn head(
    alloc: Global,
    bits: u32,
    code: u32,
    size: u32,
    number: u32,
) -> Result<Bytes, NoMemory>
    requires code { code < 2 ^ 4 }
    requires some { 1 ≤ size }
    requires few { size ≤ 4096 }
    requires number { number < 2 ^ 31 }
    ensures { IfOk result (λ head. head ≡ whole.head_of bits code size number) }
{
    let mut writer = BitWriter::new(alloc);
    put_header(&mut writer, bits, code, size, number)?;
    let mut head = writer.finish();
    let crc = crc8(head.as_slice());
    head.append(&[crc])?;
    Ok(head)
}

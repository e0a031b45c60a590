// What no line of data reaches yet: fields of bits, bytes that are replaced and given back, a checksum in parts.

use super::is;
use cook_bits::{BitReader, BitWriter, Bytes, Crc32Ebml, full_name};
use std::test::Fail;

#[test]
fn fields_are_written_and_read(rt: HostRuntime) -> Result<(), Fail> {
    let fields = [
        (0b101, 3),
        (0, 0),
        (0b0_0101, 5),
        (0xC30F_18FF, 32),
        (1, 1),
        (0x1234_5678, 32),
    ];
    let mut writer = BitWriter::new(rt.alloc());
    for (value, count) in fields {
        writer.put(value, count)?;
    }
    writer.align()?;
    writer.align()?;
    let bytes = writer.finish();
    let expected = [0xA5, 0xC3, 0x0F, 0x18, 0xFF, 0x89, 0x1A, 0x2B, 0x3C, 0x00];
    is(&rt, bytes.as_slice(), expected.as_slice());
    let mut reader = BitReader::new(bytes.as_slice());
    for (value, count) in fields {
        assert_eq!(rt; reader.take(count), Some(value), "{count} bits");
    }
    is(&rt, reader.take(8), None);
    assert_eq!(rt; reader.left(), 7, "unchanged");
    is(&rt, reader.take(7), Some(0));
    is(&rt, reader.take(1), None);
    Ok(())
}

#[test]
fn bytes_are_replaced_and_checked_in_parts(rt: HostRuntime) -> Result<(), Fail> {
    let mut bytes = Bytes::new(rt.alloc());
    bytes.append(b"1234000089")?;
    bytes.put_at(4, b"5678");
    bytes.truncate(8);
    let copied = Bytes::copy(rt.alloc(), bytes.as_slice())?;
    let held = Bytes::from_vec(bytes.into_vec());
    is(&rt, copied.as_slice(), held.as_slice());
    let mut register = Crc32Ebml::new();
    register.update(held.as_slice());
    register.update(b"9");
    is(&rt, register.value(), 0xCBF4_3926);
    let name = full_name(rt.alloc(), "", "a/b").ok().ok_or("ample memory")?;
    assert_eq!(rt; name.as_str(), "/a/b");
    Ok(())
}

#[test]
fn unary_numbers_and_whole_bytes_are_taken(rt: HostRuntime) {
    // 0001 0000 0000 0000 0000 0000 0000 0000 0000 0000 0001 1010 0000 0000
    let mut reader = BitReader::new(&[0x10, 0, 0, 0, 0, 0x1A, 0]);
    is(&rt, reader.take_unary(), Some(3));
    is(&rt, reader.take_unary(), Some(39));
    is(&rt, reader.take_unary(), Some(0));
    is(&rt, reader.bytes_left(), 1);
    reader.align();
    is(&rt, reader.take_unary(), None);
    is(&rt, reader.left(), 8);
}

//! What holds of bits and of checksums. Each function does nothing: its contract is the law, which a proof elsewhere
//! can cite.

ghost use Rattle.std.specs.Prelude.{◌≡◌, codes};
ghost use Rattle.cook_bits.specs.Crc.{crc32_high_of, crc32_ebml_of, crc8_of, crc16_of};
ghost use Rattle.cook_bits.specs.Laws.{WrittenFieldIsRead, BitsAreOfTheirBytes, BytesAreOfTheirBits, BitsFollow, BitsAreEightAByte, NumbersAreTheirBits, ParityLeavesZero, OnlyParityLeavesZero, RegisterGoesOn, RegisterStays, RegisterFits, AnyCutIsTheSame, FitsBits};

/// A field that is written is read, whatever follows it.
pub fn written_field_is_read()
    ensures { WrittenFieldIsRead }
{}

/// Bits are those of their bytes, and bytes those of their bits.
pub fn bits_and_bytes_tell_each_other()
    ensures bits { BitsAreOfTheirBytes }
    ensures bytes { BytesAreOfTheirBits }
{}

/// The bits of bytes follow one another, eight a byte; those of a number's bytes are the number's.
pub fn bits_of_bytes()
    ensures follow { BitsFollow }
    ensures eight { BitsAreEightAByte }
    ensures numbers { NumbersAreTheirBits }
{}

/// Four bytes behind others make their CRC 0 exactly where they are the CRC of the others, big-endian.
pub fn parity_leaves_zero()
    ensures parity { ParityLeavesZero }
    ensures only { OnlyParityLeavesZero }
{}

/// The register takes bytes in parts as it takes them whole, and the CRC is the same however they are cut.
pub fn register_goes_on()
    ensures parts { RegisterGoesOn }
    ensures nothing { RegisterStays }
    ensures fits { RegisterFits }
    ensures cut { AnyCutIsTheSame }
{}

/// Each CRC has as many bits as its name says.
pub fn checksums_fit()
    ensures high { FitsBits 32 crc32_high_of }
    ensures ebml { FitsBits 32 crc32_ebml_of }
    ensures eight { FitsBits 8 crc8_of }
    ensures sixteen { FitsBits 16 crc16_of }
{}

/// The definitions give the usual check values, those of the nine bytes `123456789`.
#[tactic(auto, unfolding(crate::specs::Crc::crc32_high_of, crate::specs::Crc::crc32_ebml_of, crate::specs::Crc::ebml_register_after, crate::specs::Crc::crc8_of, crate::specs::Crc::crc16_of, crate::specs::Crc::crc_of, crate::specs::Crc::remainder_of, crate::specs::Crc::divided, crate::specs::Crc::added, crate::specs::Bits::low_bits, crate::specs::Bits::number_of))]
pub fn check_values()
    ensures high { crc32_high_of (codes "123456789") ≡ 0x89A1_897F }
    ensures ebml { crc32_ebml_of (codes "123456789") ≡ 0xCBF4_3926 }
    ensures eight { crc8_of (codes "123456789") ≡ 0xF4 }
    ensures sixteen { crc16_of (codes "123456789") ≡ 0xFEE8 }
{}

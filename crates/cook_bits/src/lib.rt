//! Bytes, bits, checksums and names: the values that every layer hands to the next, seen by contracts as lists.
#![tactic(auto)]

mod bit_reader;
mod bit_writer;
mod bytes;
mod crc;
pub mod laws;
mod memory;
mod name;
mod names;
mod sharing;

pub use bit_reader::BitReader;
pub use bit_writer::BitWriter;
pub use bytes::Bytes;
pub use crc::{Crc32Ebml, crc8, crc16, crc32_ebml, crc32_high};
pub use memory::NoMemory;
pub use name::Name;
pub use names::{MOST_NAME_BYTES, Named, full_name, holds_folder_of, is_relative_name};

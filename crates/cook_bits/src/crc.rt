// Cyclic redundancy checks, a byte or eight bytes at a time by tables.
mod ebml;
mod ebml_tables;
mod flac;
mod flac_tables;
mod high;
mod high_tables;

pub use ebml::{Crc32Ebml, crc32_ebml};
pub use flac::{crc8, crc16};
pub use high::crc32_high;

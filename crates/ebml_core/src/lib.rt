//! The elements of EBML (RFC 8794), written and read: identifiers, sizes, heads and whole elements.
#![tactic(auto)]

pub mod laws;
mod parts;
mod rate;
mod read;
mod spell;
mod write;

pub use parts::{Head, Size};
pub use rate::rate_bytes;
pub use read::{head, read_id, read_size};
pub use write::{head_len, put_bytes, put_head, put_uint, uint_len};

//! Slices of FFV1 frames (RFC 9043, sections 4.5 to 4.8): a tile of samples as coded bytes, both ways.
#![tactic(auto)]

mod around;
mod colour;
mod depth;
mod error;
mod getting;
mod head;
mod header;
pub mod laws;
mod lines;
mod load;
mod place;
mod reading;
mod row;
mod scratch;
mod sharing;
mod store;
mod taking;
mod terms;
mod writing;

pub use error::SliceWhy;
pub use head::SliceHead;
pub use scratch::{Scratch, decode};
pub use sharing::shared_types;
pub use taking::read_head;
pub use writing::encode;

//! The tiles of an FFV1 frame coded and decoded by workers over one buffer, in which the samples stand tile after tile.
#![tactic(auto)]

mod decoded;
mod decoding;
mod encoded;
mod encoding;
mod starts;

pub use decoded::{MOST_TILES, decode_frame};
pub use decoding::DecodeTask;
pub use encoded::{encode_frame, no_slices};
pub use encoding::{EncodeTask, NoScratch};

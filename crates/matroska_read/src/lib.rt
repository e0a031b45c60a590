//! The outline of a Matroska file: its tracks, its blocks and the files that are attached to it, by places.
#![tactic(auto)]

mod attached;
mod attachments;
mod block;
mod checksum;
mod cluster;
mod element;
mod entry;
mod error;
mod files;
mod header;
pub mod laws;
mod numbers;
mod parts;
mod segment;
mod top;
mod track_entries;
mod tracks;

pub use error::{OutlineError, OutlineFault};
pub use files::{FileAt, Outline};
pub use top::outline;
pub use tracks::{BlockAt, Codec, Track};

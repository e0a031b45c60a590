//! Sound in RIFF WAVE files: where a file's samples lie, and samples as bytes, both ways.
#![tactic(auto)]

mod chunks;
mod coding;
mod finding;
mod format;
pub mod laws;
mod layout;
mod parts;
mod reader;
mod samples;
mod why;

pub use finding::find;
pub use layout::WavLayout;
pub use samples::{to_bytes, to_samples};
pub use why::{WavError, WavWhy};

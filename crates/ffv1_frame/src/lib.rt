//! Frames of FFV1 (RFC 9043, sections 4.4 to 4.9): slices with their footers, and the grid of cells that they cover.
#![tactic(auto)]

mod assembling;
mod cells;
mod cover;
mod cutting;
mod edges;
mod error;
mod fitting;
mod footer;
pub mod laws;
mod part;
mod picture;
mod sharing;

pub use assembling::{FOOTER_LEN, append_slice, assemble};
pub use cells::Grid;
pub use cutting::cut;
pub use error::FrameWhy;
pub use fitting::{GridBad, grid};
pub use part::{Part, Parts};
pub use picture::PictureWhy;

//! The samples and pads of DPX images (SMPTE 268M): an image taken apart into them and put together again, and
//! the forms in which side data tells the pads.
#![tactic(auto)]

mod blocks;
mod frame;
pub mod laws;
mod line;
mod pad_end;
mod pad_filling;
mod pad_form;
pub mod pad_laws;
mod pad_runs;
mod sharing;
mod tile;
pub mod tile_laws;
mod tiling;
mod units;

pub use frame::{join, pads_fit, split};
pub use pad_end::pad_form_len;
pub use pad_filling::{PadBad, pad_fill};
pub use pad_form::pad_record;
pub use tile::Tile;
pub use tiling::{are_whole_lines, from_tiles, to_tiles};

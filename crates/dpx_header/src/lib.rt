//! The layout of a DPX file (SMPTE 268M): where its image lies and how its lines are packed.
#![tactic(auto)]

mod header;
pub mod laws;
mod layout_type;
mod lengths;
mod reading;
mod rules;
mod sharing;
mod why;

pub use layout_type::Layout;
pub use lengths::{image_len, pad_len, pads_in_line, sample_len};
pub use reading::layout;
pub use rules::line_len;
pub use why::DpxWhy;

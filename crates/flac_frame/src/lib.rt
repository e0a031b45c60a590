//! FLAC (RFC 9639): the parameters of a stream, and frames, both written and read.
#![tactic(auto)]

mod block;
mod channels;
mod encoding;
mod error;
mod frame;
mod header;
pub mod laws;
mod reading;
mod residual;
mod sharing;
mod stereo;
mod stream_info;
mod subframe;

pub use block::Block;
pub use encoding::encode;
pub use error::FlacWhy;
pub use frame::decode;
pub use stream_info::{InfoBad, StreamInfo};

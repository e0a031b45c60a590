//! The pieces that a package is written of: its header, its tracks, a Cluster for each block, its attachments. Each call answers
//! the bytes of one piece.
#![tactic(auto)]

mod attached;
mod blocks;
mod entries;
mod front;
mod track;

pub use attached::{attached_head, attached_len, attachments_head};
pub use blocks::cluster;
pub use entries::tracks;
pub use front::header;
pub use track::TrackOut;

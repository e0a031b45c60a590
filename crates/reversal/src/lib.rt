//! The side data of a package: what restoring needs of each file beside its content, written and read.
#![tactic(auto)]

mod error;
pub mod laws;
mod names;
mod parts;
mod reading;
mod record;
mod unread;
mod writing;

pub use error::SideError;
pub use reading::read;
pub use record::{FileRecord, Kind};
pub use writing::write;

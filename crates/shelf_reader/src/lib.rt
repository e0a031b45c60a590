//! Reading a format from a file of a shelf: one reader of its bytes, and one walk over what stands in a parent.
#![tactic(auto)]

mod error;
mod reader;
mod walking;

pub use error::ReadError;
pub use reader::{ROOM, Reader};
pub use walking::{Children, Items, walk};

//! The names of a directory's files as a tree linked by index: which name may be added, in which order they stand, and
//! which folders are still to be made.
#![tactic(auto)]

mod error;
mod folders;
mod insertion;
pub mod laws;
mod node;
mod search;
mod sharing;
mod texts;
mod tree;
mod walk;

pub use error::NameError;
pub use tree::NameTree;
pub use walk::Walk;

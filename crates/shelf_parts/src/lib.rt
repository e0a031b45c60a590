//! Parts of files on a shelf, read piece by piece: summed by MD5, and copied to the end of another file.
#![tactic(auto)]

mod parts;

pub use parts::{FilePart, copy_part, sum_part};

//! Runs of frames: which numbered frames of a listing follow one another.
#![tactic(auto)]

pub mod laws;
mod number;
mod run;
mod scan;
mod sharing;

pub use run::{Members, Run};
pub use scan::runs;

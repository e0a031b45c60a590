//! Packing: the plan of a directory, or its first offence, and the package that is written for it.
#![tactic(auto)]

mod append;
mod attach;
mod error;
mod lengths;
mod offence;
mod packing;
mod planned;
mod planned_file;
mod planning;

pub use error::{PackError, RefuseWhy};
pub use packing::{Options, PackSum, pack};
pub use planned::Plan;
pub use planned_file::{PlannedFile, PlannedKind};
pub use planning::plan;

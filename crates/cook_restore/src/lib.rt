//! Restoring: what a package holds, what it means, and its files given back one by one.
#![tactic(auto)]

mod contents;
mod error;
mod folders;
mod giving;
pub mod laws;
mod next;
mod opening;
mod plain;
mod restorer;
mod stop;

pub use error::{FileError, FileWhy, PackageWhy, RestoreError};
pub use opening::open_package;
pub use restorer::{FileSum, Restorer};

//! The top call: the words of a command line as an order, how a command ended, and what is said of it.
#![tactic(auto)]

pub mod laws;
mod report;
mod restore;
mod status;
mod top;
mod words;

pub use report::{write_line, write_packed, write_restored};
pub use status::Status;
pub use top::cook;
pub use words::{Order, Usage, read_words};

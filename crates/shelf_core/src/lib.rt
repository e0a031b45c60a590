//! The outside of the program: files on a shelf and reports to a sink, as traits whose clauses cross every layer, and in memory.
#![tactic(auto)]

mod calls;
mod calm_shelf;
mod files;
pub mod laws;
mod mem_shelf;
mod mem_sink;
mod pieces;
mod refusals;
mod sharing;
mod shelf;
mod sink;
mod store;

pub use calm_shelf::CalmShelf;
pub use mem_shelf::MemShelf;
pub use mem_sink::MemSink;
pub use pieces::{PieceError, read_piece};
pub use shelf::{CreateError, Entry, Shelf, ShelfError};
pub use sink::{Sink, SinkFailed};

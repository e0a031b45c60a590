//! Tasks over the tiles of one buffer, which workers share: each tile is lent to one task at a time.
#![tactic(auto)]

mod gate;
mod pool;
mod shares;
mod sharing;
mod task;

pub use gate::{Gate, OpenGate};
pub use pool::run_tiles;
pub use task::TileTask;

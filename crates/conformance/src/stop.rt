use cook_bits::NoMemory as Starved;
use shelf_core::ShelfError;
use std::alloc::{AllocError, AllocFailed};
use thiserror::Error;

/// Why a case has no answer of its own.
#[derive(Clone, Copy, Debug, PartialEq, Eq, Error)]
pub enum Stop {
    /// The line is no case.
    #[error("unreadable")]
    Unreadable,
    /// The case breaks the condition of its call.
    #[error("out of range")]
    OutOfRange,
    /// No memory was left.
    #[error("no memory")]
    NoMemory,
}

impl From<AllocError> for Stop {
    fn from(_: AllocError) -> Stop {
        Stop::NoMemory
    }
}

impl<T: Drop> From<AllocFailed<T>> for Stop {
    fn from(_: AllocFailed<T>) -> Stop {
        Stop::NoMemory
    }
}

impl From<Starved> for Stop {
    fn from(_: Starved) -> Stop {
        Stop::NoMemory
    }
}

impl From<ShelfError> for Stop {
    fn from(error: ShelfError) -> Stop {
        match error {
            ShelfError::NoMemory => Stop::NoMemory,
            // A shelf in memory fails only where it was told to.
            ShelfError::Failed => Stop::OutOfRange,
        }
    }
}

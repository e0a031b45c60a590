use cook_bits::Name;
use thiserror::Error;

/// Why side data could not be read.
#[derive(Debug, Drop, Error)]
pub enum SideError {
    /// The field that begins at this byte is cut or has a value that it may not have, or bytes stand behind the last record.
    #[error("bad structure at byte {place}")]
    SideBad { place: u64 },
    /// The name of a record is not relative, not above the one before, or under one that is held.
    #[error("bad name")]
    SideNames { name: Name },
    /// No memory was left.
    #[error("no memory")]
    NoMemory,
}

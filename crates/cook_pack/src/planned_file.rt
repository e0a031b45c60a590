// What a plan keeps of a file.
use cook_bits::Name;

/// What a planned file is to its package.
#[derive(Clone, Copy, Debug, PartialEq, Eq)]
pub enum PlannedKind {
    /// It is attached as it is.
    Other,
}

/// A file that is to be packed.
#[derive(Debug, Drop)]
pub struct PlannedFile {
    /// Its relative name.
    pub name: Name,
    /// The length of its content in bytes.
    pub length: u64,
    /// What it is to the package.
    pub kind: PlannedKind,
}

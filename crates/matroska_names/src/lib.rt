//! Matroska's identifiers, media types and names, as far as a package has them: one catalogue, which the writer, the reader
//! and the definitions cite.
#![tactic(auto)]

pub mod ids;
pub mod texts;

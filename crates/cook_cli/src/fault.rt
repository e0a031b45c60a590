//! What the system said where a call failed.
ghost use Rattle.std.specs.Prelude.{◌≡◌, IfSome, string_bytes};

use std::alloc::{AllocError, AllocFailed, Global};
use std::io;

/// Why a call failed, and at which name.
#[derive(Drop)]
pub(crate) struct Fault {
    /// The name, if there was memory to keep it.
    pub(crate) name: Option<String>,
    pub(crate) error: io::Error,
}

impl Fault {
    /// An error of the system at a name.
    pub(crate) fn at(alloc: Global, name: &str, error: io::Error) -> Fault
        ensures name { IfSome result.name (λ kept. string_bytes kept ≡ name.now) }
        ensures error { result.error ≡ error }
    {
        let name = String::from_str(alloc, name).ok();
        Fault { name, error }
    }
}

impl From<AllocError> for Fault {
    fn from(error: AllocError) -> Fault {
        Fault {
            name: None,
            error: error.into(),
        }
    }
}

impl<T: Drop> From<AllocFailed<T>> for Fault {
    fn from(error: AllocFailed<T>) -> Fault {
        AllocError::from(error).into()
    }
}

ghost use Rattle.std.specs.Prelude.{◌≡◌};
ghost use Rattle.reversal.specs.declared.unread.Unread.TheVariants.{NoMemory as Starved};

use std::alloc::{AllocError, AllocFailed};

// Why a field could not be read.
#[derive(Debug, Drop)]
pub(crate) enum Unread {
    /// The field is faulty that so many bytes, up to the end, begin with.
    Fault { left: usize },
    NoMemory,
}

impl From<AllocError> for Unread {
    ghost from_gives = { λ _ e. e ≡ Starved };

    fn from(_: AllocError) -> Unread {
        Unread::NoMemory
    }
}

impl<T: Drop> From<AllocFailed<T>> for Unread {
    ghost from_gives = { λ _ e. e ≡ Starved };

    fn from(_: AllocFailed<T>) -> Unread {
        Unread::NoMemory
    }
}

impl From<cook_bits::NoMemory> for Unread {
    ghost from_gives = { λ _ e. e ≡ Starved };

    fn from(_: cook_bits::NoMemory) -> Unread {
        Unread::NoMemory
    }
}

use crate::{CreateError, ShelfError};
use cook_bits::NoMemory;

impl From<NoMemory> for ShelfError {
    ghost use Rattle.std.specs.Prelude.{◌≡◌};
    ghost use Rattle.shelf_core.specs.declared.shelf.ShelfError.TheVariants.{NoMemory as no_memory};

    ghost from_gives = { λ e r. r ≡ no_memory };

    fn from(_: NoMemory) -> Self {
        ShelfError::NoMemory
    }
}

impl From<NoMemory> for CreateError {
    ghost use Rattle.std.specs.Prelude.{◌≡◌};
    ghost use Rattle.shelf_core.specs.declared.shelf.CreateError.TheVariants.{NoMemory as no_memory};

    ghost from_gives = { λ e r. r ≡ no_memory };

    fn from(_: NoMemory) -> Self {
        CreateError::NoMemory
    }
}

use cook_bits::NoMemory as Starved;
use std::alloc::{AllocError, AllocFailed};
use thiserror::Error;

/// Why a configuration record is refused: the first rule that it breaks, each condition tested as soon
/// as the values that it names were read.
#[derive(Clone, Copy, Debug, PartialEq, Eq, Error)]
pub enum ParamsWhy {
    /// It has fewer than 4 bytes, or its CRC isn't 0.
    #[error("bad CRC")]
    RecordCrc,
    /// Its first byte is 255, with which no coded bytes begin.
    #[error("bad start")]
    Start,
    /// The exponent of a symbol passes 30.
    #[error("bad symbol")]
    Symbol,
    /// The version isn't 3, or the micro version is below 4.
    #[error("other version")]
    Version,
    /// The coder isn't the range coder with the default table.
    #[error("other coder")]
    Coder,
    /// The colour space isn't RGB, the bits of a sample aren't 8, 10, 12 or 16, there is a subsampling, or an extra plane.
    #[error("other colours")]
    Colour,
    /// There are more than 1,024 slices.
    #[error("too many slices")]
    Grid,
    /// There are no sets of quantization tables or more than 8, or the runs of a table pass its half.
    #[error("bad quantization tables")]
    Tables,
    /// A set has more than 32,768 contexts.
    #[error("too many contexts")]
    Contexts,
    /// Initial states stand in the record.
    #[error("initial states")]
    States,
    /// The slices' parity or the use of other frames is neither on nor off.
    #[error("bad flags")]
    Ec,
    /// No memory was left.
    #[error("no memory")]
    NoMemory,
}

impl From<AllocError> for ParamsWhy {
    ghost use Rattle.std.specs.Prelude.{◌≡◌};
    ghost use Rattle.ffv1_params.specs.declared.error.ParamsWhy.TheVariants.{NoMemory as Memory};

    ghost from_gives = { λ _ e. e ≡ Memory };

    fn from(_: AllocError) -> ParamsWhy {
        ParamsWhy::NoMemory
    }
}

impl<T: Drop> From<AllocFailed<T>> for ParamsWhy {
    ghost use Rattle.std.specs.Prelude.{◌≡◌};
    ghost use Rattle.ffv1_params.specs.declared.error.ParamsWhy.TheVariants.{NoMemory as Memory};

    ghost from_gives = { λ _ e. e ≡ Memory };

    fn from(_: AllocFailed<T>) -> ParamsWhy {
        ParamsWhy::NoMemory
    }
}

impl From<Starved> for ParamsWhy {
    ghost use Rattle.std.specs.Prelude.{◌≡◌};
    ghost use Rattle.ffv1_params.specs.declared.error.ParamsWhy.TheVariants.{NoMemory as Memory};

    ghost from_gives = { λ _ e. e ≡ Memory };

    fn from(_: Starved) -> ParamsWhy {
        ParamsWhy::NoMemory
    }
}

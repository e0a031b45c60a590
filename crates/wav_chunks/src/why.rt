use shelf_reader::ReadError;
use thiserror::Error;

/// Why a file is no wave that is taken: the first rule that it breaks, in the order of a walk over its chunks.
#[derive(Clone, Copy, Debug, PartialEq, Eq, Error)]
pub enum WavWhy {
    /// The file has fewer than 12 bytes.
    #[error("Short")]
    Short,
    /// It doesn't begin with `RIFF`, a size and `WAVE`.
    #[error("Magic")]
    Magic,
    /// The content of `fmt ` has fewer than 16 bytes, or fewer than 40 with the extensible tag, or is cut by the file's end.
    #[error("FormatShort")]
    FormatShort,
    /// The samples aren't PCM, by the tag or by the subformat of the extensible tag.
    #[error("Tag")]
    Tag,
    /// There isn't one channel up to eight.
    #[error("Channels")]
    Channels,
    /// The rate isn't from 1 to 1,048,575 blocks a second.
    #[error("Rate")]
    Rate,
    /// A sample hasn't 8, 16 or 24 bits.
    #[error("Bits")]
    Bits,
    /// A block isn't as long as a sample of each channel.
    #[error("Align")]
    Align,
    /// `data` comes and no `fmt ` came.
    #[error("NoFormat")]
    NoFormat,
    /// The file ends and no `data` came.
    #[error("NoData")]
    NoData,
    /// There are 2^36 blocks or more.
    #[error("TooLong")]
    TooLong,
}

/// Why there is no layout of a wave.
#[derive(Clone, Copy, Debug, PartialEq, Eq, Error)]
pub enum WavError {
    /// The file breaks a rule: the first one in the order of the walk.
    #[error("{0}")]
    Why(WavWhy),
    /// The shelf failed.
    #[error("shelf fault")]
    Failed,
    /// No memory was left on the shelf.
    #[error("no memory")]
    NoMemory,
    /// The file ended at `now`, before the length that was said of it.
    #[error("ended at byte {now}")]
    Short { now: u64 },
}

/// What reading a wave answers, inside this crate.
pub type Reading<T> = Result<T, ReadError<WavWhy>>;

impl From<ReadError<WavWhy>> for WavError {
    ghost use Rattle.std.specs.Prelude.{◌≡◌};
    ghost use Rattle.wav_chunks.specs.Found.{wav_error};

    ghost from_gives = { λ e result. result ≡ wav_error e };

    fn from(error: ReadError<WavWhy>) -> Self {
        match error {
            ReadError::Fault(why) => WavError::Why(why),
            ReadError::Short { now } => WavError::Short { now },
            ReadError::Failed => WavError::Failed,
            ReadError::NoMemory => WavError::NoMemory,
        }
    }
}

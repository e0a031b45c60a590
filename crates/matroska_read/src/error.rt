ghost use Rattle.std.specs.Prelude.{◌≡◌};
ghost use Rattle.shelf_reader.specs.declared.error.ReadError.TheVariants as errors;
ghost use Rattle.matroska_read.specs.declared.error.OutlineFault.TheVariants as faults;

use shelf_reader::ReadError;
use thiserror::Error;

/// What is wrong with a file that is read as a package: its first fault.
#[derive(Clone, Copy, Debug, PartialEq, Eq, Error)]
pub enum OutlineFault {
    /// The element whose first byte stands at `place` breaks a rule of the format, and none before it does.
    #[error("bad file at byte {place}")]
    Shape { place: u64 },
    /// The content of a track is encoded.
    #[error("encoded track {track}")]
    Encoded { track: u64 },
    /// A track has a codec that isn't read.
    #[error("unknown track {track}")]
    TrackUnknown { track: u64 },
}

/// Why there is no outline.
#[derive(Clone, Copy, Debug, PartialEq, Eq, Error)]
pub enum OutlineError {
    /// The element whose first byte stands at `place` breaks a rule of the format, and none before it does.
    #[error("bad file at byte {place}")]
    Shape { place: u64 },
    /// The content of a track is encoded.
    #[error("encoded track {track}")]
    Encoded { track: u64 },
    /// A track has a codec that isn't read.
    #[error("unknown track {track}")]
    TrackUnknown { track: u64 },
    /// The shelf failed.
    #[error("shelf fault")]
    Failed,
    /// The file ended at `now`, before the length that was said of it.
    #[error("ended at byte {now}")]
    Short { now: u64 },
    /// No memory was left.
    #[error("no memory")]
    NoMemory,
}

/// What reading a package answers, inside this crate.
pub type Reading<T> = Result<T, ReadError<OutlineFault>>;

/// The fault of the element at a place.
pub fn shape(place: u64) -> ReadError<OutlineFault>
    ensures { result ≡ errors.Fault (faults.Shape place) }
{
    ReadError::Fault(OutlineFault::Shape { place })
}

/// The fault of a track whose content is encoded.
pub fn encoded(track: u64) -> ReadError<OutlineFault>
    ensures { result ≡ errors.Fault (faults.Encoded track) }
{
    ReadError::Fault(OutlineFault::Encoded { track })
}

/// The fault of a track whose codec isn't read.
pub fn track_unknown(track: u64) -> ReadError<OutlineFault>
    ensures { result ≡ errors.Fault (faults.TrackUnknown track) }
{
    ReadError::Fault(OutlineFault::TrackUnknown { track })
}

impl From<ReadError<OutlineFault>> for OutlineError {
    ghost use Rattle.std.specs.Prelude.{◌≡◌};
    ghost use Rattle.matroska_read.specs.Answered.{outline_error};

    ghost from_gives = { λ e result. result ≡ outline_error e };

    fn from(error: ReadError<OutlineFault>) -> Self {
        match error {
            ReadError::Fault(OutlineFault::Shape { place }) => OutlineError::Shape { place },
            ReadError::Fault(OutlineFault::Encoded { track }) => OutlineError::Encoded { track },
            ReadError::Fault(OutlineFault::TrackUnknown { track }) => {
                OutlineError::TrackUnknown { track }
            }
            ReadError::Short { now } => OutlineError::Short { now },
            ReadError::Failed => OutlineError::Failed,
            ReadError::NoMemory => OutlineError::NoMemory,
        }
    }
}

// What a record has by its kind, beside what each record has.
ghost use Rattle.std.specs.Prelude.{◌≡◌};
ghost use Rattle.reversal.specs.declared.record.Kind.TheVariants.{Other};
ghost use Rattle.reversal.specs.SideData.{HasNone};

use crate::Kind;
use cook_bits::Bytes;
use std::alloc::Global;

/// The number of the kind of an attached file.
pub(crate) const OTHER: u8 = 0;

/// The number of the kind of a frame.
pub(crate) const FRAME: u8 = 1;

/// The number of the kind of a wave.
pub(crate) const WAVE: u8 = 2;

/// How many tracks there are at most: a track has a number from 1 to this.
pub(crate) const TRACKS: u8 = 126;

/// A kind, as the first byte of a record tells it.
#[derive(Clone, Copy, Debug, PartialEq, Eq)]
pub(crate) enum Tag {
    Other,
    Frame,
    Wave,
}

/// The kind with its track, and the bytes beside the samples.
#[derive(Debug, Drop)]
pub(crate) struct Parts {
    pub kind: Kind,
    pub head: Bytes,
    pub pads: Bytes,
    pub tail: Bytes,
}

impl Parts {
    /// Those of an attached file.
    pub fn none(alloc: Global) -> Parts
        ensures kind { result.kind ≡ Other }
        ensures none { HasNone result.head result.pads result.tail }
    {
        Parts {
            kind: Kind::Other,
            head: Bytes::new(alloc),
            pads: Bytes::new(alloc),
            tail: Bytes::new(alloc),
        }
    }
}

//! What holds of layouts. Each function does nothing: its contract is the law, which a proof
//! elsewhere can cite.

ghost use Rattle.dpx_header.specs.Laws.{FirstBytesDecide, FollowingBytesDont, ImagesAreInFiles, LayoutsAreBounded, LayoutsAreFormed};

/// The layout follows from the first 1,664 bytes and the file's length: of a head that is cut behind
/// them, or that more bytes follow, it is the same.
#[tactic(auto, using(crate::proofs::Prefixes::first_bytes_decide, crate::proofs::Prefixes::following_bytes_dont))]
pub fn first_bytes_decide()
    ensures taken { FirstBytesDecide }
    ensures followed { FollowingBytesDont }
{}

/// Each layout is well formed, and its image begins behind the header and ends in the file.
pub fn layouts_fit()
    ensures formed { LayoutsAreFormed }
    ensures in_file { ImagesAreInFiles }
{}

/// A line fits the stride of a well-formed layout, with at most three bytes past it, and the samples, the
/// pads and the bytes of its image are far fewer than 2^32.
pub fn layouts_are_bounded()
    ensures { LayoutsAreBounded }
{}

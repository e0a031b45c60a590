//! What holds of frames and their parts. Each function does nothing: its contract is the law, which a
//! proof elsewhere can cite.

ghost use Rattle.dpx_packing.specs.Laws.{ImagesComeApart, ImagesComeTogether, LinesAreAtStrides, FramesAreTheirParts};

use crate::pad_laws::written_pads_are_read;

/// The samples and pads of an image have the layout's lengths, they fit, and they make the image again.
pub fn images_come_apart()
    ensures { ImagesComeApart }
{
    dpx_header::laws::layouts_are_bounded();
}

/// The image that fitting samples and pads make has the layout's length and holds just these.
pub fn images_come_together()
    ensures { ImagesComeTogether }
{
    dpx_header::laws::layouts_are_bounded();
}

/// The line of an image at a height begins at so many strides: the samples and the pads at its place are
/// those that its bytes hold.
pub fn lines_are_at_strides()
    ensures { LinesAreAtStrides }
{
    dpx_header::laws::layouts_are_bounded();
}

/// A file that has a layout is its head, the image of its samples and pads, and its tail. The samples
/// are below 2 ^ bits, the pads fit and the form of them fills them again, and the head with the file's
/// length tells the same layout.
pub fn n1()
    ensures { FramesAreTheirParts }
{
    dpx_header::laws::first_bytes_decide();
    dpx_header::laws::layouts_fit();
    dpx_header::laws::layouts_are_bounded();
    written_pads_are_read();
}

//! What holds of outlines. Each function does nothing: its contract is the law, which a proof elsewhere can cite.

ghost use Rattle.matroska_read.specs.Spelled.{SpelledIsOutline};

/// The outline of a file that is spelled of values, element by element, is these values, each at its place.
pub fn spelled_is_outline()
    ensures { SpelledIsOutline }
{
    ebml_core::laws::written_size_is_read();
}

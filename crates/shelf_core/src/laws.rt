//! What holds of all files that a shelf tells.

ghost use Rattle.shelf_core.specs.Laws.{ContentsUnderAreBytes};

/// The files under a root have contents of bytes, as the contents of every shelf are.
pub fn told_contents_are_bytes()
    ensures { ContentsUnderAreBytes }
{}

//! What holds of names that are taken one after another. Each function does nothing: its contract is the law.

ghost use Rattle.name_tree.specs.Laws.{RefusesBehind, TakesInOrder};

/// The names of a directory are taken in byte order: a name behind all that are held is refused only where it is no
/// relative name or under one of them, and so none of a directory is.
pub fn names_are_taken()
    ensures behind { RefusesBehind }
    ensures in_order { TakesInOrder }
{}

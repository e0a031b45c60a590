// The items that stand one after the other in a parent, and one walk over them for every format and every parent.
ghost use Rattle.std.specs.Prelude.{◌≡◌, ℕ, ◌<◌, ◌≤◌, IfOk};
ghost use Rattle.shelf_reader.specs.Keeping.{known, IsReady, Reads};
ghost use Rattle.shelf_reader.specs.Readings.{Reading, Answers};
ghost use Rattle.shelf_reader.specs.Walk.{Grammar, GoesOn, walked};

use crate::{ReadError, Reader};
use shelf_core::Shelf;

/// A format whose items stand one after the other in a parent: elements of EBML, chunks of RIFF.
pub trait Items {
    /// What stands at a place.
    type Item: Copy;
    /// What is wrong at a place.
    type Fault: Drop;

    /// The format's grammar: what stands at a place of a parent, and the place behind it.
    ghost grammar: { Grammar Self.Item Self.Fault };

    /// An item keeps inside a parent that ends at a place.
    ghost Sits: { ℕ → Self.Item → Type 0 };

    /// The place behind an item.
    fn behind(item: Self::Item) -> u64
        ensures { result ≡ grammar.behind item };

    /// The item at a place of a parent that ends at `end`.
    fn item<S: Shelf>(
        reader: &mut Reader<'_, '_, S>,
        place: u64,
        end: u64,
    ) -> Result<Self::Item, ReadError<Self::Fault>>
        requires ready { IsReady S.Shelf reader.old }
        requires before { place < end }
        requires within { end ≤ reader.old.len }
        ensures exact { Answers (known S.Shelf reader.old) (grammar.item_at end place) result }
        ensures sits { IfOk result (Sits end) }
        ensures advances { IfOk result (λ item. place < grammar.behind item) }
        ensures reads { Reads S.Shelf reader.old reader.new result };

    /// An item ends where its parent does or before.
    ghost ends: { (end : ℕ) (item : Self.Item) → Sits end item → grammar.behind item ≤ end };

    /// What keeps inside a parent keeps inside what holds the parent.
    ghost widens: { (end len : ℕ) (item : Self.Item) → Sits end item → end ≤ len → Sits len item };

    /// By the grammar too, each item ends behind its place, where its parent does or before.
    ghost goes_on: { GoesOn grammar };
}

/// What is known of the children of a parent, as far as they were read.
pub trait Children<G: Items>: Drop {
    /// What is known with one child more, or its fault.
    ghost visit: { Self → G.Item → Reading Self G.Fault };

    /// What is known speaks of places inside a file of so many bytes.
    ghost Fits: { ℕ → Self → Type 0 };

    /// Reads one child more.
    fn with_child<S: Shelf>(
        self,
        reader: &mut Reader<'_, '_, S>,
        child: G::Item,
    ) -> Result<Self, ReadError<G::Fault>>
        requires ready { IsReady S.Shelf reader.old }
        requires sits { G.Sits reader.old.len child }
        requires fits { Fits reader.old.len self }
        ensures exact { Answers (known S.Shelf reader.old) (visit self child) result }
        ensures fits { IfOk result (Fits reader.old.len) }
        ensures reads { Reads S.Shelf reader.old reader.new result };
}

/// Reads the children that stand from a place of a parent up to its end, one after the other. The first fault, of an item
/// or of its visit, ends the walk.
#[tactic(auto, using(crate::specs::WalkLaws::walk_laws, crate::specs::KeepingLaws::keeping_laws))]
pub fn walk<S: Shelf, G: Items, C: Children<G>>(
    reader: &mut Reader<'_, '_, S>,
    children: C,
    start: u64,
    end: u64,
) -> Result<C, ReadError<G::Fault>>
    requires ready { IsReady S.Shelf reader.old }
    requires before { start ≤ end }
    requires within { end ≤ reader.old.len }
    requires fits { C.Fits reader.old.len children }
    ensures exact { Answers (known S.Shelf reader.old) (walked G.grammar C.visit end children start) result }
    ensures fits { IfOk result (C.Fits reader.old.len) }
    ensures reads { Reads S.Shelf reader.old reader.new result }
{
    let mut children = children;
    let mut at = start;
    while at < end {
        let child = G::item(reader, at, end)?;
        children = children.with_child(reader, child)?;
        at = G::behind(child);
    }
    Ok(children)
}
